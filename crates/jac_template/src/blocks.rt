ghost use Rattle.std.specs.Prelude.{◌≡◌, false, ◌∷◌, Some, None, IfOk, IfErr, OnOk, IsTrue, []};
ghost use Rattle.jac_lang.specs.Mirror.{expression_of, statement_of, statements_of};
ghost use Rattle.jac_lang.specs.Syntax.{Statements};
ghost use Rattle.jac_template.specs.Faults.{Fault, fault_in_template, refuses_template};
ghost use Rattle.jac_template.specs.Grammar.{misplaced_fault};
ghost use Rattle.jac_template.specs.Marked.{mark_of};
ghost use Rattle.jac_template.specs.Progress.{Opening, turned_in, progress, progress_of, open_block_of, open_blocks, opening_of, statement, run_order, block_opened, block_turned, block_closed, progress_after, IsUnclosed};

use crate::TemplateFault;
use crate::marks::Mark;
use crate::statements::before_others;
use jac_lang::{Expr, Query, Stmt, Stmts};
use jac_value::{Memory, Txt};
use std::alloc::Global;
use std::mem;

// The largest number of blocks that are open at once.
const NESTING_LIMIT: usize = 64;

/// The open body: that of a `let`, the first or the second of an `if`, or that of a `for`.
#[derive(Drop)]
pub enum Context {
    Let(Txt, Expr),
    Then(Expr),
    Else(Expr, Stmts),
    For(Query),
}

/// An open block. The statements before it are in reverse order.
#[derive(Drop)]
pub struct Frame {
    place: u64,
    context: Context,
    before: Stmts,
}

/// The open blocks, the innermost last, and the statements of its body so far, in reverse order.
#[derive(Drop)]
pub struct Blocks {
    frames: Vec<Frame>,
    body: Stmts,
}

impl Blocks {
    pub fn new(alloc: Global) -> Blocks
        ensures { progress_of result ≡ progress [] Statements.none }
    {
        Blocks {
            frames: Vec::new(alloc),
            body: Stmts::End,
        }
    }

    /// Reads the mark of the tag at this place.
    pub fn take(&mut self, alloc: Global, place: u64, mark: Mark) -> Result<(), TemplateFault>
        ensures taken { OnOk result (progress_after place (mark_of mark) (progress_of self.old)
            ≡ Some (progress_of self.new)) }
        ensures fault { IfErr result (λ f. IsTrue (refuses_template f)
            → (progress_after place (mark_of mark) (progress_of self.old) ≡ None)
            × (fault_in_template f ≡ misplaced_fault place (mark_of mark))) }
    {
        match mark {
            Mark::Put(e) => match self.add(alloc, Stmt::Put(e)) {
                Ok(()) => Ok(()),
                Err(Memory) => Err(TemplateFault::Memory),
            },
            Mark::Esc(e) => match self.add(alloc, Stmt::Esc(e)) {
                Ok(()) => Ok(()),
                Err(Memory) => Err(TemplateFault::Memory),
            },
            Mark::Let(name, e) => self.open(place, Context::Let(name, e)),
            Mark::If(c) => self.open(place, Context::Then(c)),
            Mark::For(q) => self.open(place, Context::For(q)),
            Mark::Else => self.turn(place),
            Mark::End => self.close(alloc, place),
        }
    }

    /// The statements, if each block has its `end`.
    pub fn finish(self) -> Result<Stmts, TemplateFault>
        ensures whole { IfOk result (λ ss. ((progress_of self).blocks ≡ [])
            × (statements_of ss ≡ run_order (progress_of self).body)) }
        ensures fault { IfErr result (λ f. IsUnclosed (progress_of self).blocks
            (fault_in_template f)) }
    {
        let Blocks { mut frames, body } = self;
        match frames.pop() {
            Some(frame) => Err(TemplateFault::Unclosed(frame.place)),
            None => Ok(body.before(Stmts::End)),
        }
    }

    fn add(&mut self, alloc: Global, stmt: Stmt) -> Result<(), Memory>
        ensures frames { OnOk result (self.new.frames ≡ self.old.frames) }
        ensures body { OnOk result (statements_of self.new.body ≡ Statements.more
            (statement_of stmt) (statements_of self.old.body)) }
    {
        let others = mem::replace(&mut self.body, Stmts::End);
        self.body = before_others(alloc, stmt, others)?;
        Ok(())
    }

    fn open(&mut self, place: u64, context: Context) -> Result<(), TemplateFault>
        ensures taken { OnOk result (block_opened place (opening_of context) (progress_of self.old)
            ≡ Some (progress_of self.new)) }
        ensures fault { IfErr result (λ f. IsTrue (refuses_template f)
            → (block_opened place (opening_of context) (progress_of self.old) ≡ None)
            × (fault_in_template f ≡ Fault.deep place)) }
    {
        if self.frames.len() >= NESTING_LIMIT {
            return Err(TemplateFault::Deep(place));
        }
        let before = mem::replace(&mut self.body, Stmts::End);
        let frame = Frame {
            place,
            context,
            before,
        };
        match push_frame(&mut self.frames, frame) {
            Ok(()) => Ok(()),
            Err(Memory) => Err(TemplateFault::Memory),
        }
    }

    fn turn(&mut self, place: u64) -> Result<(), TemplateFault>
        ensures taken { OnOk result (block_turned (progress_of self.old).blocks
            (progress_of self.old).body ≡ Some (progress_of self.new)) }
        ensures fault { IfErr result (λ f. IsTrue (refuses_template f)
            → (block_turned (progress_of self.old).blocks (progress_of self.old).body ≡ None)
            × (fault_in_template f ≡ Fault.stray place)) }
    {
        let Some(frame) = self.frames.pop() else {
            return Err(TemplateFault::Stray(place));
        };
        let Frame {
            place: begun,
            context,
            before,
        } = frame;
        match context {
            Context::Then(c) => self.begin_else(begun, c, before),
            Context::Let(_, _) => Err(TemplateFault::Stray(place)),
            Context::Else(_, _) => Err(TemplateFault::Stray(place)),
            Context::For(_) => Err(TemplateFault::Stray(place)),
        }
    }

    // Begins the second body of the `if` with its tag at this place.
    fn begin_else(&mut self, place: u64, c: Expr, before: Stmts) -> Result<(), TemplateFault>
        ensures taken { OnOk result (turned_in place (Opening.first (expression_of c))
            (statements_of before) (progress_of self.old).blocks (progress_of self.old).body
            ≡ Some (progress_of self.new)) }
        ensures fault { IfErr result (λ f. refuses_template f ≡ false) }
    {
        let then = mem::replace(&mut self.body, Stmts::End).before(Stmts::End);
        let frame = Frame {
            place,
            context: Context::Else(c, then),
            before,
        };
        match push_frame(&mut self.frames, frame) {
            Ok(()) => Ok(()),
            Err(Memory) => Err(TemplateFault::Memory),
        }
    }

    fn close(&mut self, alloc: Global, place: u64) -> Result<(), TemplateFault>
        ensures taken { OnOk result (block_closed (progress_of self.old).blocks
            (progress_of self.old).body ≡ Some (progress_of self.new)) }
        ensures fault { IfErr result (λ f. IsTrue (refuses_template f)
            → (block_closed (progress_of self.old).blocks (progress_of self.old).body ≡ None)
            × (fault_in_template f ≡ Fault.stray place)) }
    {
        let Some(frame) = self.frames.pop() else {
            return Err(TemplateFault::Stray(place));
        };
        let body = mem::replace(&mut self.body, frame.before).before(Stmts::End);
        match self.add(alloc, statement_of(frame.context, body)) {
            Ok(()) => Ok(()),
            Err(Memory) => Err(TemplateFault::Memory),
        }
    }
}

fn push_frame(frames: &mut Vec<Frame>, frame: Frame) -> Result<(), Memory>
    ensures { OnOk result (open_blocks frames.new.items ≡ open_block_of frame ∷ open_blocks
        frames.old.items) }
{
    frames.push(frame)?;
    Ok(())
}

// The statement of a block, after its `end` is read.
fn statement_of(context: Context, body: Stmts) -> Stmt
    ensures { statement_of result ≡ statement (opening_of context) (statements_of body) }
{
    match context {
        Context::Let(name, e) => Stmt::Let(name, e, body),
        Context::Then(c) => Stmt::If(c, body, Stmts::End),
        Context::Else(c, then) => Stmt::If(c, then, body),
        Context::For(q) => Stmt::For(q, body),
    }
}
