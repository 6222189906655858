//! A client: the tree of its page, and what frames make of it.
ghost use Rattle.std.specs.Prelude.{◌≡◌, None, true, option_map, IfOk, OnOk, OnErr};
ghost use Rattle.std.specs.Option.{is_some};
ghost use Rattle.std.specs.Result.{IsErrOf};
ghost use Rattle.client_merge.specs.declared.fault.MergeFault.TheVariants as MergeFault;
ghost use Rattle.diff_tree.specs.Parts.{part_data};
ghost use Rattle.client_merge.specs.Reading.{tree_of};
ghost use Rattle.client_merge.specs.Held.{page_of};

use crate::{HeldNode, MergeFault, merge, show, take_tree};
use diff_tree::Part;
use std::alloc::Global;
use text_core::{OutOfMemory, Text};

/// A client of one page. It holds the page's tree, or no page.
#[derive(Debug, Drop)]
pub struct Client {
    held: Option<HeldNode>,
}

impl Client {
    ghost use Rattle.client_merge.specs.Page.{tree_held, merged_page};

    /// A client without a page.
    pub fn empty() -> Client
        ensures { tree_held result ≡ None }
    {
        Client { held: None }
    }

    /// What its page shows; none where it holds no page.
    pub fn html(&self, alloc: Global) -> Result<Option<Text>, OutOfMemory>
        ensures { IfOk result (λ page. page ≡ option_map page_of (tree_held self.now)) }
    {
        match &self.held {
            Some(held) => Ok(Some(show(alloc, held)?)),
            None => Ok(None),
        }
    }

    /// Takes a whole tree in the stead of what it holds. A node that is not whole is a BadFrame, and after an error
    /// the client is as before.
    pub fn take_whole(&mut self, alloc: Global, part: Part) -> Result<(), MergeFault>
        ensures ok { OnOk result ((tree_of (part_data part) ≡ tree_held self.new) × (is_some (tree_held self.new) ≡ true)) }
        ensures bad { IsErrOf result MergeFault.BadFrame → tree_of (part_data part) ≡ None }
        ensures kept { OnErr result (self.new ≡ self.old) }
    {
        let held = take_tree(alloc, part)?;
        self.held = Some(held);
        Ok(())
    }

    /// Merges a diff into the tree of its page. A diff that does not fit the tree is a BadFrame, and so is one for a
    /// client without a page. After an error the client is as before.
    pub fn take_diff(&mut self, alloc: Global, part: Part) -> Result<(), MergeFault>
        ensures ok { OnOk result ((merged_page (tree_held self.old) (part_data part) ≡ tree_held self.new) × (is_some (tree_held self.new) ≡ true)) }
        ensures bad { IsErrOf result MergeFault.BadFrame → merged_page (tree_held self.old) (part_data part) ≡ None }
        ensures kept { OnErr result (self.new ≡ self.old) }
    {
        match &mut self.held {
            Some(held) => merge(alloc, held, part),
            None => Err(MergeFault::BadFrame),
        }
    }

    /// The page ends: it holds none.
    pub fn end(&mut self)
        ensures { tree_held self.new ≡ None }
    {
        self.held = None;
    }
}
