//! The table of routes.
ghost use Rattle.std.specs.Prelude.{◌≡◌, ◌<◌, ◌^◌, Some, Ok, OnOk, IfOk, IfErr, length};
ghost use Rattle.route_table.specs.Table.{added, table_of, RefusedAs, NotAdded};

use crate::route::route_of;
use matchit::{InsertError, Router};
use std::alloc::Global;
use std::marker::Model;
use text_core::{OutOfMemory, Seq, Text};

/// The paths of views, the k-th that of view k.
pub type Paths = Seq<Text>;

/// Why paths make no table.
#[derive(Clone, Copy, Debug, PartialEq, Eq)]
pub enum RouteFault {
    /// The path of that number is bad, or `matchit` refuses it beside the earlier ones.
    BadRoute(u32),
    /// Memory was wanting.
    OutOfMemory,
}

impl From<OutOfMemory> for RouteFault {
    ghost use Rattle.std.specs.Prelude.{◌≡◌};
    ghost use Rattle.route_table.specs.declared.table.RouteFault.TheVariants as fault;

    ghost from_gives = { λ _ e. e ≡ fault.OutOfMemory };

    fn from(_: OutOfMemory) -> RouteFault {
        RouteFault::OutOfMemory
    }
}

/// A view and its path.
#[derive(Debug, Drop)]
pub struct Target {
    pub view: u32,
    pub path: Text,
}

/// Paths to the numbers of views, which contracts see as `matchit`'s rows.
#[derive(Drop)]
pub struct Routes {
    pub(crate) router: Router<Target>,
}

impl Model for Routes {
    ghost use Rattle.route_table.specs.Table.{Rows};

    ghost Value = { Rows };

    ghost view = { λ r. r.router };
}

impl Routes {
    /// The table of paths, numbered from 0. BadRoute names the first path that is bad, or that `matchit` refuses beside
    /// the earlier ones.
    pub fn build(alloc: Global, paths: &Paths) -> Result<Routes, RouteFault>
        requires { length paths.now < 2 ^ 32 }
        ensures ok { IfOk result (λ routes. table_of paths.now ≡ Ok routes) }
        ensures refused { IfErr result (RefusedAs (table_of paths.now)) }
    {
        let mut router = Router::new(alloc);
        for (i, path) in paths.as_slice().iter().enumerate() {
            add(alloc, &mut router, i as u32, path.as_str())?;
        }
        Ok(Routes { router })
    }
}

fn add(alloc: Global, router: &mut Router<Target>, view: u32, path: &str) -> Result<(), RouteFault>
    ensures ok { OnOk result (added view path.now router.old ≡ Some router.new) }
    ensures refused { IfErr result (NotAdded view (added view path.now router.old)) }
{
    let Some(route) = route_of(alloc, path)? else {
        return Err(RouteFault::BadRoute(view));
    };
    let path = Text::copy_of(alloc, path)?;
    match router.insert(route.as_str(), Target { view, path }) {
        Ok(()) => Ok(()),
        Err(InsertError::OutOfMemory) => Err(RouteFault::OutOfMemory),
        Err(_) => Err(RouteFault::BadRoute(view)),
    }
}
