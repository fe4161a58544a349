//! Using a repair.
ghost use Rattle.std.specs.Prelude.{◌≡◌, ℕ, ◌<◌, ◌≤◌, not, ◌&&◌, replicate, if◌then◌else◌, Some, None, nat_lt, slice_index, slice_index_or};
ghost use Rattle.coding.specs.Pieces.{module_at, slot_at};
ghost use Rattle.coding.specs.Repairs.{Answers, Known, Side, Sides, Sources, Unknowns, Uses};
ghost use Rattle.coding.specs.Steps.{flags, scattered};

use crate::parity::products;
use crate::repair::{GroupSymbols, Repair};
use field::Field;
use rack::rack::Rack;
use rack::symbol;
use std::array;

/// The array `start`, with the first `n` of the values in their places. A place that the array does not have is passed over.
fn scatter<T: Copy + Drop, const N: usize>(
    start: [T; N],
    places: [u8; 4],
    values: [T; 4],
    n: usize,
) -> [T; N]
    requires few { n ≤ 4 }
    ensures { (d : T) → result ≡ scattered start places (λ j. slice_index_or values j d) n }
{
    let mut all = start;
    // by index: a `zip` would take the first `n` of both arrays, and be no plainer
    for j in 0..n {
        let place = usize::from(places[j]);
        if place < N {
            all[place] = values[j];
        }
    }
    all
}

impl Repair {
    /// The symbol of chunk `e`; zero where it is missing, and where the group has no such chunk.
    fn known_at<R: Rack>(&self, rack: &R, offset: u16, e: usize) -> u16
        requires { e < 14 }
        ensures { R.valid rack.now → result ≡ (if nat_lt e self.now.group.size && not (flags self.now.gone e) then (R.meaning rack.now).symbol (module_at self.now.group e) (slot_at self.now.group e) offset else 0) }
    {
        if e < usize::from(self.group.size) && !self.gone[e] {
            let piece = self.group.pieces[e];
            symbol(rack, piece.module, piece.slot, offset)
        } else {
            0
        }
    }

    /// The symbols of the chunks that are left, and zeros in the other places.
    fn known<R: Rack>(&self, rack: &R, offset: u16) -> [u16; 14]
        ensures { R.valid rack.now → Known self.now (R.meaning rack.now) offset result }
    {
        array::from_fn(|e| self.known_at(rack, offset, e))
    }

    /// The symbol of number `j` of the parities that are used; zero past the last of them.
    fn source_at<R: Rack>(&self, rack: &R, offset: u16, j: usize) -> u16
        requires { j < 4 }
        ensures { R.valid rack.now → j < self.now.count → result ≡ (R.meaning rack.now).symbol (slice_index self.now.sources j) self.now.group.slot offset }
    {
        if j < self.count {
            symbol(rack, self.sources[j], self.group.slot, offset)
        } else {
            0
        }
    }

    /// The symbols of the parities that are used, and zeros after them.
    fn sources_at<R: Rack>(&self, rack: &R, offset: u16) -> [u16; 4]
        ensures { R.valid rack.now → Sources self.now (R.meaning rack.now) offset result }
    {
        array::from_fn(|j| self.source_at(rack, offset, j))
    }

    /// The symbols of the parities that are used, by the numbers of the parities.
    fn numbered(&self, symbols: [u16; 4]) -> [Option<u16>; 4]
        ensures { result ≡ scattered (replicate 4 None) self.now.parities (λ j. Some (slice_index symbols j)) self.now.count }
    {
        let values = array::from_fn(|j| Some(symbols[j]));
        scatter([None; 4], self.parities, values, self.count)
    }

    /// Side `j` of the equations; zero past the last of them.
    fn side<F: Field>(&self, field: &F, known: [u16; 14], symbols: [u16; 4], j: usize) -> u16
        requires { j < 4 }
        ensures { j < self.now.count → Side (F.arithmetic field.now) self.now known symbols j result }
    {
        if j < self.count {
            field.sub(symbols[j], products(field, self.coefficients[j], known))
        } else {
            0
        }
    }

    /// The sides of the equations: what the chunks that are missing add to each parity that is used.
    fn sides<F: Field>(&self, field: &F, known: [u16; 14], symbols: [u16; 4]) -> [u16; 4]
        ensures { Sides (F.arithmetic field.now) self.now known symbols result }
    {
        array::from_fn(|j| self.side(field, known, symbols, j))
    }

    /// The symbols of the missing chunks.
    fn unknowns<F: Field>(&self, field: &F, sides: [u16; 4]) -> [u16; 4]
        ensures { Unknowns (F.arithmetic field.now) self.now sides result }
    {
        array::from_fn(|j| {
            if j < self.count {
                products(field, self.inverse[j], sides)
            } else {
                0
            }
        })
    }

    /// The known symbols, with those of the missing chunks in their places.
    fn joined(&self, known: [u16; 14], unknowns: [u16; 4]) -> [u16; 14]
        ensures { result ≡ scattered known self.now.missing (λ j. slice_index unknowns j) self.now.count }
    {
        scatter(known, self.missing, unknowns, self.count)
    }

    /// The symbols of the group's pieces at an offset. The chunks that are left are as the rack has them, and those that are
    /// missing follow from the equations of the parities. Each symbol is fetched once.
    pub fn pieces_at<F: Field, R: Rack>(&self, field: &F, rack: &R, offset: u16) -> GroupSymbols
        ensures chunks { R.valid rack.now → (R.meaning rack.now).order ≡ (F.arithmetic field.now).order → Answers (F.arithmetic field.now) self.now (R.meaning rack.now) offset result.chunks }
        ensures parities { R.valid rack.now → Uses (F.arithmetic field.now) self.now (R.meaning rack.now) offset result.parities }
    {
        let known = self.known(rack, offset);
        let symbols = self.sources_at(rack, offset);
        let sides = self.sides(field, known, symbols);
        let unknowns = self.unknowns(field, sides);
        GroupSymbols {
            chunks: self.joined(known, unknowns),
            parities: self.numbered(symbols),
        }
    }

    /// The symbols of the group's chunks at an offset, in their order, and zeros after them.
    pub fn chunks_at<F: Field, R: Rack>(&self, field: &F, rack: &R, offset: u16) -> [u16; 14]
        ensures { R.valid rack.now → (R.meaning rack.now).order ≡ (F.arithmetic field.now).order → Answers (F.arithmetic field.now) self.now (R.meaning rack.now) offset result }
    {
        self.pieces_at(field, rack, offset).chunks
    }
}
