// Playing a script, part by part: on a rack alone, and on a pool.
ghost use Rattle.std.specs.Prelude.{◌≡◌, IfOk, None};
ghost use Rattle.pool.specs.Openings.{lay_refusal, fit_refusal, laid_over};
ghost use Rattle.pool.specs.Pools.{Held};
ghost use Rattle.player.specs.Answers.{bare, pooled};
ghost use Rattle.player.specs.Holding.{Ready, alone, within, started, started_over, memory_by, Fits, Startable, Possible, Left};
ghost use Rattle.player.specs.Sessions.{Plays, Ends, PlaysOn, PlaysOver};
ghost use Rattle.std.specs.Option.{option_map};

use crate::answer::{answer, answer_pooled};
use crate::lines::next_line;
use crate::request::{By, RackRequest, Request, Response, Start};
use crate::rows::{ReadLine, Row, gather, lay};
use crate::session::Session;
use field::{ByteField, Field, NibbleField, PrimeField};
use layout::plan::Plan;
use pool::kinds::Reply;
use pool::pool::Pool;
use rack::Rack;
use script::command::FieldKind;
use script::language::Language;
use std::alloc::AllocError;

impl<L: Language> Session<'_, L> {
    // Plays lines where no pool has the rack, until one asks for a rack or a pool.
    fn play_alone<R: Rack>(&mut self, rack: &mut Option<R>) -> Result<Option<Request>, AllocError>
        requires { Ready R.valid rack.old }
        ensures { IfOk result (λ asked. Ready R.valid rack.new × Possible asked (option_map R.meaning rack.new) × Ends asked self.old self.new × Plays L.writes self.old (alone (option_map R.meaning rack.old)) self.new (memory_by asked (alone (option_map R.meaning rack.new)))) }
    {
        while let Some((line, rest)) = next_line(self.left) {
            self.left = rest;
            let Response { text, request } = answer(
                self.heap,
                &mut self.plan,
                rack,
                L::parse(line),
            )?;
            self.print(line, text.as_str())?;
            if request.is_some() {
                return Ok(request);
            }
        }
        Ok(None)
    }

    // Plays lines where a pool has the rack, until one asks for a rack or another pool, and gives the rack back.
    fn play_pooled<F: Field + Drop, R: Rack + Drop>(
        &mut self,
        pool: Pool<F, R>,
    ) -> Result<(Option<Request>, R), AllocError>
        requires { Held F.arithmetic R.valid R.meaning pool }
        ensures { IfOk result (PlaysOver R.valid R.meaning L.writes self.old (within F.arithmetic R.valid R.meaning pool) self.new) }
    {
        let mut pool = pool;
        loop {
            let Some(next) = self.play_row(&mut pool)? else {
                return Ok((None, pool.into_rack()));
            };
            let ReadLine {
                line,
                rest,
                command,
            } = next;
            self.left = rest;
            let Response { text, request } = answer_pooled(
                self.heap,
                &mut self.plan,
                &pool,
                command,
            )?;
            self.print(line, text.as_str())?;
            if request.is_some() {
                return Ok((request, pool.into_rack()));
            }
        }
    }

    // Lays a pool with the calls that follow in a row, and plays the lines after them.
    // Each function here that takes a rack asks that it is valid: the trait's calls promise nothing of another.
    fn play_laid<F: Field + Drop, R: Rack + Drop>(
        &mut self,
        by: Plan,
        field: F,
        rack: R,
    ) -> Result<(Option<Request>, R), AllocError>
        requires valid { R.valid rack }
        requires fits { lay_refusal by (F.arithmetic field).order (R.meaning rack) ≡ None }
        ensures { IfOk result (PlaysOver R.valid R.meaning L.writes self.old (pooled (F.arithmetic field) by (laid_over by (R.meaning rack))) self.new) }
    {
        let Row { calls, next: _ } = gather::<L>(self.heap, self.left)?;
        let mut told = vec![in self.heap; Ok(Reply::Done); calls.len()]?;
        let pool = lay(by, field, rack, calls.as_slice(), told.as_mut_slice());
        self.print_row(told.as_slice())?;
        self.play_pooled(pool)
    }

    // Starts a pool over a field, and plays the lines for it.
    fn play_started<F: Field + Drop, R: Rack + Drop>(
        &mut self,
        by: By,
        field: F,
        rack: R,
    ) -> Result<(Option<Request>, R), AllocError>
        requires valid { R.valid rack }
        requires fits { Fits by (F.arithmetic field).order (R.meaning rack) }
        ensures { IfOk result (PlaysOver R.valid R.meaning L.writes self.old (started_over (F.arithmetic field) by (R.meaning rack)) self.new) }
    {
        match by {
            By::Plan(plan) => self.play_laid(plan, field, rack),
            By::Label(label) => self.play_pooled(Pool::open(label, field, rack)),
        }
    }

    // The same over the field that is named. Each arm has a field of another type, so no closure stands for all.
    fn play_pool<R: Rack + Drop>(
        &mut self,
        start: Start,
        rack: R,
    ) -> Result<(Option<Request>, R), AllocError>
        requires valid { R.valid rack }
        requires fits { Startable start (R.meaning rack) }
        ensures { IfOk result (PlaysOver R.valid R.meaning L.writes self.old (started start (R.meaning rack)) self.new) }
    {
        match start.field {
            FieldKind::Byte => self.play_started(start.by, ByteField, rack),
            FieldKind::Nibble => self.play_started(start.by, NibbleField, rack),
            FieldKind::Prime => self.play_started(start.by, PrimeField, rack),
        }
    }

    // Starts a pool over a rack, plays the lines for it and for the pools that are asked for after it over the same rack, until
    // one asks for another rack.
    fn play_pools<R: Rack + Drop>(
        &mut self,
        start: Start,
        rack: R,
    ) -> Result<Option<RackRequest>, AllocError>
        requires valid { R.valid rack }
        requires fits { Startable start (R.meaning rack) }
        ensures { IfOk result (PlaysOn L.writes self.old (started start (R.meaning rack)) self.new) }
    {
        let mut start = start;
        let mut rack = rack;
        loop {
            let (asked, back) = self.play_pool(start, rack)?;
            let Some(asked) = asked else {
                return Ok(None);
            };
            match asked {
                Request::Rack(request) => return Ok(Some(request)),
                Request::Pool(next) => {
                    start = next;
                    rack = back;
                }
            }
        }
    }

    /// Plays lines with the rack in use, if there is one, until one asks for another rack.
    pub fn play<R: Rack + Drop>(
        &mut self,
        rack: Option<R>,
    ) -> Result<Option<RackRequest>, AllocError>
        requires { Ready R.valid rack }
        ensures { IfOk result (PlaysOn L.writes self.old (alone (option_map R.meaning rack)) self.new) }
    {
        let mut rack = rack;
        let Some(asked) = self.play_alone(&mut rack)? else {
            return Ok(None);
        };
        match asked {
            Request::Rack(request) => Ok(Some(request)),
            Request::Pool(start) => match rack {
                Some(rack) => self.play_pools(start, rack),
                None => unreachable!(),
            },
        }
    }
}
