//! The names in expressions.
ghost use Rattle.std.specs.Prelude.{◌≡◌, OnOk};
ghost use Rattle.ast_core.specs.NamesIn.{all_names, expr_reads, part_reads, pair_reads, step_reads, operand_reads, call_reads};
ghost use Rattle.ast_core.specs.Walk.{met};

use crate::walk::Walk;
use crate::{Expr, Exprs, Operand, Pairs, Parts, PathStep, PipeCall, TextPart};
use std::alloc::Global;
use text_core::{OutOfMemory, Seq};

impl Walk {
    #[cycle(expr)]
    pub fn read_expr(&mut self, alloc: Global, expr: &Expr) -> Result<(), OutOfMemory>
        ensures { OnOk result (self.new ≡ met (expr_reads expr.now) self.old) }
    {
        match expr {
            Expr::Number(_) | Expr::Atom(_) | Expr::Nil | Expr::Bool(_) => Ok(()),
            Expr::Text(parts) => self.read_parts(alloc, parts),
            Expr::Assign(name) => self.read_assign(alloc, name),
            Expr::Name(name) => self.read_variable(alloc, name),
            Expr::List(items) | Expr::Tuple(items) => self.read_exprs(alloc, items),
            Expr::Map(pairs) => self.read_pairs(alloc, pairs),
            Expr::Path { value, steps } => {
                self.read_expr(alloc, value)?;
                self.read_steps(alloc, steps)
            }
            Expr::Unary { op: _, value } => self.read_expr(alloc, value),
            Expr::LeftChain { first, rest } | Expr::RightChain { first, rest } => {
                self.read_expr(alloc, first)?;
                self.read_operands(alloc, rest)
            }
            Expr::If { test, yes, no } => {
                self.read_expr(alloc, test)?;
                self.read_expr(alloc, yes)?;
                match no {
                    Some(no) => self.read_expr(alloc, no),
                    None => Ok(()),
                }
            }
            Expr::Call {
                function: _,
                arguments,
            } => self.read_exprs(alloc, arguments),
            Expr::Pipes { first, calls } => {
                self.read_expr(alloc, first)?;
                self.read_calls(alloc, calls)
            }
        }
    }

    #[cycle(expr)]
    fn read_exprs(&mut self, alloc: Global, exprs: &Exprs) -> Result<(), OutOfMemory>
        ensures { OnOk result (self.new ≡ met (all_names expr_reads exprs.now) self.old) }
    {
        'exprs: for expr in exprs.as_slice() {
            self.read_expr(alloc, expr)?;
        }
        Ok(())
    }

    #[cycle(expr)]
    fn read_parts(&mut self, alloc: Global, parts: &Parts) -> Result<(), OutOfMemory>
        ensures { OnOk result (self.new ≡ met (all_names part_reads parts.now) self.old) }
    {
        'parts: for part in parts.as_slice() {
            self.read_part(alloc, part)?;
        }
        Ok(())
    }

    #[cycle(expr)]
    fn read_part(&mut self, alloc: Global, part: &TextPart) -> Result<(), OutOfMemory>
        ensures { OnOk result (self.new ≡ met (part_reads part.now) self.old) }
    {
        match part {
            TextPart::Plain(_) => Ok(()),
            TextPart::Put(expr) => self.read_expr(alloc, expr),
        }
    }

    #[cycle(expr)]
    fn read_pairs(&mut self, alloc: Global, pairs: &Pairs) -> Result<(), OutOfMemory>
        ensures { OnOk result (self.new ≡ met (all_names pair_reads pairs.now) self.old) }
    {
        'pairs: for pair in pairs.as_slice() {
            self.read_expr(alloc, &pair.value)?;
        }
        Ok(())
    }

    #[cycle(expr)]
    fn read_steps(&mut self, alloc: Global, steps: &Seq<PathStep>) -> Result<(), OutOfMemory>
        ensures { OnOk result (self.new ≡ met (all_names step_reads steps.now) self.old) }
    {
        'steps: for step in steps.as_slice() {
            self.read_step(alloc, step)?;
        }
        Ok(())
    }

    #[cycle(expr)]
    fn read_step(&mut self, alloc: Global, step: &PathStep) -> Result<(), OutOfMemory>
        ensures { OnOk result (self.new ≡ met (step_reads step.now) self.old) }
    {
        match step {
            PathStep::Field(_) => Ok(()),
            PathStep::Index(expr) => self.read_expr(alloc, expr),
        }
    }

    #[cycle(expr)]
    fn read_operands(&mut self, alloc: Global, operands: &Seq<Operand>) -> Result<(), OutOfMemory>
        ensures { OnOk result (self.new ≡ met (all_names operand_reads operands.now) self.old) }
    {
        'operands: for operand in operands.as_slice() {
            self.read_expr(alloc, &operand.value)?;
        }
        Ok(())
    }

    #[cycle(expr)]
    fn read_calls(&mut self, alloc: Global, calls: &Seq<PipeCall>) -> Result<(), OutOfMemory>
        ensures { OnOk result (self.new ≡ met (all_names call_reads calls.now) self.old) }
    {
        'calls: for call in calls.as_slice() {
            self.read_exprs(alloc, &call.arguments)?;
        }
        Ok(())
    }
}
