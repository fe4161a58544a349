// Reading and writing a word.
ghost use Rattle.std.specs.Prelude.{◌≡◌, ◌<◌, ◌≤◌, true, false, Ok};
ghost use Rattle.coding.specs.Groups.{parities};
ghost use Rattle.coding.specs.Schemes.{scheme_of};
ghost use Rattle.pool.specs.Book.{settled};
ghost use Rattle.pool.specs.Effects.{is_staged};
ghost use Rattle.pool.specs.Pools.{Held, Obeys, standing};
ghost use Rattle.pool.specs.Results.{of_done, of_symbol};
ghost use Rattle.pool.specs.WordCalls.{Wrote};
ghost use Rattle.pool.specs.WordSteps.{Looked};
ghost use Rattle.pool.specs.declared.kinds.Call.TheVariants.{Read, Write};

use crate::adding::{Parities, add_parities, shares_of};
use crate::kinds::Phase;
use crate::outs::outs;
use crate::pool::Pool;
use crate::word::Word;
use coding::prepare::prepare;
use field::Field;
use layout::plan::Cell;
use layout::refusal::Refusal;
use rack::rack::Rack;
use rack::symbol;

/// A word that was looked up.
#[derive(Clone, Copy)]
pub(crate) struct Found {
    /// its symbol
    symbol: u16,
    /// the symbols of those parities of its settled group that were fetched to find it, by the numbers of the parities
    parities: [Option<u16>; 4],
}

impl<F: Field, R: Rack> Pool<F, R> {
    /// Looks up a word whose module is out, from the first pieces that are left of its settled group.
    fn rebuild_word(&self, word: Word) -> Result<Found, Refusal>
        requires { word.plan ≡ self.now.plan }
        ensures { Held F.arithmetic R.valid R.meaning self.now → (R.meaning self.now.rack).fitted word.cell.column ≡ false → Looked (F.arithmetic self.now.field) (scheme_of word.plan) (standing F.arithmetic R.valid R.meaning self.now) word.chunk word.offset result }
    {
        let kind = self.phase.settled();
        let out = outs(&self.rack, &word.plan);
        let repair = prepare(&word.plan, &self.field, kind, word.group(kind), out)?;
        let pieces = repair.pieces_at(&self.field, &self.rack, word.offset);
        Ok(Found {
            symbol: pieces.chunks[word.index(kind)],
            parities: pieces.parities,
        })
    }

    /// Looks up a word: the symbol in the rack, or where its module is out, that which is rebuilt.
    fn find_word(&self, word: Word) -> Result<Found, Refusal>
        requires { word.plan ≡ self.now.plan }
        ensures { Held F.arithmetic R.valid R.meaning self.now → Looked (F.arithmetic self.now.field) (scheme_of word.plan) (standing F.arithmetic R.valid R.meaning self.now) word.chunk word.offset result }
    {
        let Cell { row, column, .. } = word.cell;
        if self.rack.ask(column) {
            return Ok(Found {
                symbol: symbol(&self.rack, column, row, word.offset),
                parities: [None; 4],
            });
        }
        self.rebuild_word(word)
    }

    /// Reads a word. Refused where there is no such chunk or offset, and where the chunk's module is out and its stripe, or
    /// its row after the changeover, misses more pieces than it has parities.
    pub fn read(&self, chunk: u16, offset: u16) -> Result<u16, Refusal>
        ensures { Obeys F.arithmetic R.valid R.meaning self.now self.now (Read chunk offset) (of_symbol result) }
    {
        let word = Word::of(&self.plan, chunk, offset)?;
        let found = self.find_word(word)?;
        Ok(found.symbol)
    }

    /// Whether the changeover is under way and the stripe of the word's chunk is carried.
    fn is_staged(&self, word: Word) -> bool
        ensures { result ≡ is_staged self.now.phase self.now.carried (scheme_of word.plan) word.chunk }
    {
        match self.phase {
            Phase::UnderWay => word.chunk / word.plan.d < self.carried,
            Phase::Before | Phase::Voided | Phase::After => false,
        }
    }

    /// As many parities as a write of the word keeps up of its settled group, and of its staged row if it is staged.
    fn most_parities(&self, word: Word) -> u16
        ensures settled { parities (scheme_of word.plan) (settled self.now.phase) ≤ result }
        ensures staged { true ≡ is_staged self.now.phase self.now.carried (scheme_of word.plan) word.chunk → (scheme_of word.plan).r' ≤ result }
    {
        let settled = self.phase.settled().parities(&word.plan);
        if self.is_staged(word) {
            settled.max(word.plan.r2)
        } else {
            settled
        }
    }

    /// Stores the symbol of a word over its old one: in the rack, where its module is fitted, and in the settled parities, and
    /// the staged ones if there are any, of its chunk. Each parity is fetched once.
    fn store_word(&mut self, word: Word, symbol: u16, old: Found)
        requires { word.plan ≡ self.old.plan }
        ensures { Held F.arithmetic R.valid R.meaning self.old → symbol < (F.arithmetic self.old.field).order → Looked (F.arithmetic self.old.field) (scheme_of word.plan) (standing F.arithmetic R.valid R.meaning self.old) word.chunk word.offset (Ok old) → Wrote F.arithmetic R.valid R.meaning self.old self.new word.chunk word.offset symbol old.symbol }
    {
        let Word {
            plan,
            cell,
            offset,
            ..
        } = word;
        let kind = self.phase.settled();
        let fetched = old.parities;
        let settled = Parities {
            first: plan.d2,
            slot: kind.parity_slot(&plan, word.group(kind)),
            count: kind.parities(&plan),
            fetched,
        };
        let change = self.field.sub(symbol, old.symbol);
        let most = self.most_parities(word);
        let shares = shares_of(&self.field, cell.x as u8, change, most);
        let _ = self.rack.put(cell.column, cell.row, offset, symbol);
        add_parities(&mut self.rack, &self.field, settled, offset, shares);
        if self.is_staged(word) {
            let staged = Parities {
                first: plan.d2,
                slot: plan.stripes() + cell.row,
                count: plan.r2,
                fetched: [None; 4],
            };
            add_parities(&mut self.rack, &self.field, staged, offset, shares);
        }
    }

    /// Writes a word. Refused where there is no such chunk or offset, where the symbol is none of the field, and where the
    /// chunk's module is out and its stripe, or its row after the changeover, misses more pieces than it has parities.
    pub fn write(&mut self, chunk: u16, offset: u16, symbol: u16) -> Result<(), Refusal>
        ensures { Obeys F.arithmetic R.valid R.meaning self.old self.new (Write chunk offset symbol) (of_done result) }
    {
        let word = Word::of(&self.plan, chunk, offset)?;
        if symbol >= self.field.order() {
            return Err(Refusal::NoSymbol(symbol));
        }
        let old = self.find_word(word)?;
        self.store_word(word, symbol, old);
        Ok(())
    }
}
