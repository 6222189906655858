//! Expressions with what they read.
ghost use Rattle.std.specs.Prelude.{◌≡◌, IfOk, codes};
ghost use Rattle.ast_core.specs.ExprView.{expr_view};
ghost use Rattle.ast_core.specs.Free.{free_names, one_of};
ghost use Rattle.ast_core.specs.Reads.{assigns_in, variables_in};

use ast_core::{Expr, Reads, expr_reads};
use std::alloc::Global;
use std::marker::Model;
use text_core::{OutOfMemory, Text};

/// An expression with the names that it reads, which contracts see as the expression.
#[derive(Debug, Drop)]
pub struct Formula {
    expr: Expr,
    reads: Reads,
}

impl Model for Formula {
    ghost use Rattle.std.specs.Prelude.{◌≡◌};
    ghost use Rattle.std.specs.Coded.{codes};
    ghost use Rattle.ast_core.specs.contracts.expr.Expr as row;
    ghost use Rattle.ast_core.specs.declared.expr.Expr.{Expr};
    ghost use Rattle.ast_core.specs.ExprView.{expr_view};
    ghost use Rattle.ast_core.specs.Free.{free_names};
    ghost use Rattle.ast_core.specs.Reads.{assigns_in, variables_in};

    ghost Value = { Expr };

    ghost coded = { Prim.hlevel (codes, row.the_row.coded) };

    ghost view = { λ f. f.expr };

    ghost invariant = { λ f. (f.reads.assigns ≡ assigns_in (free_names (expr_view f.expr))) × (f.reads.variables ≡ variables_in (free_names (expr_view f.expr))) };
}

impl Formula {
    /// An expression, and what it reads.
    pub fn of(alloc: Global, expr: Expr) -> Result<Formula, OutOfMemory>
        ensures { IfOk result (λ f. f ≡ expr) }
    {
        let reads = expr_reads(alloc, &expr)?;
        Ok(Formula { expr, reads })
    }

    /// The expression.
    pub fn expr(&self) -> &Expr
        ensures { result.now ≡ self.now }
    {
        &self.expr
    }

    /// The assigns and the variables that it reads, each in byte order, none twice.
    pub fn reads(&self) -> &Reads
        ensures assigns { result.now.assigns ≡ assigns_in (free_names (expr_view self.now)) }
        ensures variables { result.now.variables ≡ variables_in (free_names (expr_view self.now)) }
    {
        &self.reads
    }

    /// Whether it reads this assign.
    pub fn reads_assign(&self, name: &str) -> bool
        ensures { result ≡ one_of name.now (assigns_in (free_names (expr_view self.now))) }
    {
        is_one_of(name, self.reads().assigns.as_slice())
    }
}

fn is_one_of(name: &str, names: &[Text]) -> bool
    ensures { result ≡ one_of name.now names.now }
{
    for other in names {
        if name == other.as_str() {
            return true;
        }
    }
    false
}
