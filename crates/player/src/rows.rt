// Calls on a pool that stand in a row: they are played in one go.
ghost use Rattle.std.specs.Prelude.{◌≡◌, ℕ, ◌<◌, ◌≤◌, List, ◌++◌, length, IfOk, IfSome, None, OnOk};
ghost use Rattle.coding.specs.Schemes.{scheme_of};
ghost use Rattle.pool.specs.Law as law;
ghost use Rattle.pool.specs.Openings.{lay_refusal, laid_over};
ghost use Rattle.pool.specs.Pools.{Held, standing};
ghost use Rattle.player.specs.Holding.{call_in, within};
ghost use Rattle.player.specs.Rows.{Gathered, ReadsNext, row_text};
ghost use Rattle.player.specs.Sessions.{kept, lines_left, Plays};
ghost use Rattle.player.specs.Transcripts.{lines};

use crate::lines::next_line;
use crate::session::Session;
use crate::show::answer_text;
use field::Field;
use layout::plan::Plan;
use pool::kinds::{Answer, Call, Reply};
use pool::pool::Pool;
use pool::run::lay_and_replay;
use rack::Rack;
use script::command::Command;
use script::language::Language;
use std::alloc::{AllocError, Global};

/// A line that is read, and is no call on a pool.
#[derive(Clone, Copy)]
pub struct ReadLine<'s> {
    pub line: &'s [u8],
    /// what stands after it
    pub rest: &'s [u8],
    /// the command that it writes, if it writes one
    pub command: Option<Command>,
}

/// Calls that stand in a row.
#[derive(Drop)]
pub struct Row<'s> {
    pub calls: Vec<Call>,
    /// the line after them, if there is one
    pub next: Option<ReadLine<'s>>,
}

/// The calls on a pool that stand in a row at the front of a text.
pub fn gather<'s, L: Language>(heap: Global, text: &'s [u8]) -> Result<Row<'s>, AllocError>
    ensures { IfOk result (λ row. Gathered L.writes (kept (lines text.now)) row.calls.items row.next × IfSome row.next (λ n. length n.rest.now < length text.now)) }
{
    let mut calls = Vec::new(heap);
    let mut left = text;
    while let Some((line, rest)) = next_line(left) {
        match L::parse(line) {
            Some(Command::OnPool(call)) => calls.push(call)?,
            command => {
                let next = ReadLine {
                    line,
                    rest,
                    command,
                };
                return Ok(Row {
                    calls,
                    next: Some(next),
                });
            }
        }
        left = rest;
    }
    Ok(Row { calls, next: None })
}

/// Makes calls of a pool, and gives their answers.
pub fn replay<F: Field, R: Rack>(
    heap: Global,
    pool: &mut Pool<F, R>,
    calls: &[Call],
) -> Result<Vec<Answer>, AllocError>
    requires { Held F.arithmetic R.valid R.meaning pool.old }
    ensures { IfOk result (λ told. Held F.arithmetic R.valid R.meaning pool.new × (pool.new.plan ≡ pool.old.plan) × (pool.new.field ≡ pool.old.field) × law.Plays (F.arithmetic pool.old.field) (scheme_of pool.old.plan) (standing F.arithmetic R.valid R.meaning pool.old) calls.now told.items (standing F.arithmetic R.valid R.meaning pool.new)) }
{
    let mut told = vec![in heap; Ok(Reply::Done); calls.len()]?;
    pool.replay(calls, &mut told);
    Ok(told)
}

/// Lays a pool and makes calls of it, in one go; `told` has room for their answers.
pub fn lay<F: Field, R: Rack>(
    plan: Plan,
    field: F,
    rack: R,
    calls: &[Call],
    told: &mut [Answer],
) -> Pool<F, R>
    requires valid { R.valid rack }
    requires fits { lay_refusal plan (F.arithmetic field).order (R.meaning rack) ≡ None }
    requires room { length told.old ≡ length calls.now }
    ensures held { Held F.arithmetic R.valid R.meaning result }
    ensures same_plan { result.plan ≡ plan }
    ensures same_field { result.field ≡ field }
    ensures long { length told.new ≡ length told.old }
    ensures plays { law.Plays (F.arithmetic field) (scheme_of plan) (laid_over plan (R.meaning rack)) calls.now told.new (standing F.arithmetic R.valid R.meaning result) }
{
    lay_and_replay(plan, field, rack, calls, told)
}

impl<'s, L: Language> Session<'s, L> {
    /// Prints the next lines, each with its answer.
    pub fn print_row(&mut self, told: &[Answer]) -> Result<(), AllocError>
        ensures printed { OnOk result ((part rest : List (List ℕ)) → length part ≡ length told.now → lines_left self.old ≡ part ++ rest → (lines_left self.new ≡ rest) × (self.new.out.items ≡ self.old.out.items ++ row_text part told.now)) }
        ensures falls { length self.new.left.now ≤ length self.old.left.now }
        ensures plan { self.new.plan ≡ self.old.plan }
    {
        for answer in told {
            let Some((line, rest)) = next_line(self.left) else {
                return Ok(());
            };
            self.left = rest;
            let text = answer_text(self.heap, *answer)?;
            self.print(line, text.as_str())?;
        }
        Ok(())
    }

    /// Plays the calls that stand in a row, in one go, and gives the line after them.
    pub fn play_row<F: Field, R: Rack>(
        &mut self,
        pool: &mut Pool<F, R>,
    ) -> Result<Option<ReadLine<'s>>, AllocError>
        requires { Held F.arithmetic R.valid R.meaning pool.old }
        ensures played { IfOk result (λ next. Held F.arithmetic R.valid R.meaning pool.new × ReadsNext L.writes (lines_left self.new) next × IfSome next (λ n. length n.rest.now < length self.old.left.now) × Plays L.writes self.old (within F.arithmetic R.valid R.meaning pool.old) self.new (within F.arithmetic R.valid R.meaning pool.new)) }
        ensures falls { length self.new.left.now ≤ length self.old.left.now }
    {
        let Row { calls, next } = gather::<L>(self.heap, self.left)?;
        let told = replay(self.heap, pool, calls.as_slice())?;
        self.print_row(told.as_slice())?;
        Ok(next)
    }
}
