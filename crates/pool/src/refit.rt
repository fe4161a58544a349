// Fitting a module that is out again.
ghost use Rattle.std.specs.Prelude.{◌≡◌, ◌<◌, ◌&&◌};
ghost use Rattle.coding.specs.Groups.{groups};
ghost use Rattle.coding.specs.Schemes.{scheme_of};
ghost use Rattle.coding.specs.Steps.{flags};
ghost use Rattle.pool.specs.Book.{holds_piece, beyond, lowest};
ghost use Rattle.pool.specs.Pools.{Obeys};
ghost use Rattle.pool.specs.Results.{of_done};
ghost use Rattle.pool.specs.declared.kinds.Call.TheVariants.{Refit};
ghost use Rattle.pool.specs.Restored.{HasChunk, ParityOn, WeightsOn, chunk_put, PutsChunks, PutsParity, PutsBack, Goes, Goes_on, GoesThrough};

use crate::outs::outs;
use crate::pool::Pool;
use coding::group::{Group, Kind};
use coding::parity::parity_of;
use coding::prepare::{is_beyond, prepare};
use coding::repair::Repair;
use field::Field;
use layout::plan::Plan;
use layout::refusal::Refusal;
use rack::rack::Rack;

/// Whether a group has a chunk on a module.
fn has_chunk(group: &Group, module: u16) -> bool
    ensures { HasChunk group.now «module» result }
{
    group
        .pieces
        .iter()
        .take(usize::from(group.size))
        .any(|piece| piece.module == module)
}

/// Which parity of a group is on a module.
fn parity_on(group: &Group, module: u16) -> Option<u8>
    ensures { ParityOn group.now «module» result }
{
    if module < group.first {
        return None;
    }
    let k = module - group.first;
    if k < 4 && k < group.parities {
        Some(k as u8)
    } else {
        None
    }
}

/// The coefficients of a group's chunks in its parity on a module, if it has one there.
fn weights_on<F: Field>(field: &F, group: &Group, module: u16) -> Option<[u16; 14]>
    ensures { WeightsOn (F.arithmetic field.now) group.now «module» result }
{
    let k = parity_on(group, module)?;
    Some(group.weights(field, k))
}

/// A group whose pieces on a module are rebuilt.
#[derive(Drop)]
struct Restoring<'a, F: Field> {
    field: &'a F,
    repair: Repair,
    module: u16,
}

impl<F: Field> Restoring<'_, F> {
    /// Puts one chunk of the group back where it is on the module.
    // A struct of the rack, the offset and the chunks would be made anew for each offset, and be no plainer.
    fn put_chunk<R: Rack>(&self, rack: &mut R, offset: u16, e: usize, chunks: [u16; 14])
        requires { e < 14 }
        ensures { R.valid rack.old → R.valid rack.new × (R.meaning rack.new ≡ chunk_put self.now.repair.group self.now.«module» offset e chunks (R.meaning rack.old)) }
    {
        let piece = self.repair.group.pieces[e];
        if e < usize::from(self.repair.group.size) && piece.module == self.module {
            let _ = rack.put(self.module, piece.slot, offset, chunks[e]);
        }
    }

    /// Puts the chunks of the group that are on the module back, at one offset.
    fn put_chunks<R: Rack>(&self, rack: &mut R, offset: u16, chunks: [u16; 14])
        ensures { R.valid rack.old → R.valid rack.new × PutsChunks self.now.repair.group self.now.«module» offset chunks 14 (R.meaning rack.old) (R.meaning rack.new) }
    {
        for e in 0..14 {
            self.put_chunk(rack, offset, e, chunks);
        }
    }

    /// Puts the parity of the group that is on the module back, at one offset. `weights` has its coefficients.
    fn put_parity<R: Rack>(
        &self,
        rack: &mut R,
        offset: u16,
        weights: Option<[u16; 14]>,
        chunks: [u16; 14],
    )
        requires { WeightsOn (F.arithmetic self.now.field.now) self.now.repair.group self.now.«module» weights }
        ensures { R.valid rack.old → R.valid rack.new × PutsParity (F.arithmetic self.now.field.now) self.now.repair.group self.now.«module» offset chunks (R.meaning rack.old) (R.meaning rack.new) }
    {
        if let Some(weights) = weights {
            let symbol = parity_of(self.field, weights, chunks);
            let _ = rack.put(self.module, self.repair.group.slot, offset, symbol);
        }
    }

    /// Rebuilds the pieces of the group that are on the module, at one offset. Each symbol is fetched once. `weights` has the
    /// coefficients of the group's parity on the module.
    fn restore_at<R: Rack>(&self, rack: &mut R, offset: u16, weights: Option<[u16; 14]>)
        requires { WeightsOn (F.arithmetic self.now.field.now) self.now.repair.group self.now.«module» weights }
        ensures { R.valid rack.old → R.valid rack.new × PutsBack (F.arithmetic self.now.field.now) self.now.repair self.now.«module» offset (R.meaning rack.old) (R.meaning rack.new) }
    {
        let chunks = self.repair.chunks_at(self.field, rack, offset);
        self.put_chunks(rack, offset, chunks);
        self.put_parity(rack, offset, weights, chunks);
    }

    /// Rebuilds the pieces of the group that are on the module, at the offsets below `len`.
    fn restore<R: Rack>(&self, rack: &mut R, len: u16)
        ensures { R.valid rack.old → R.valid rack.new × Goes (F.arithmetic self.now.field.now) self.now.repair self.now.«module» len (R.meaning rack.old) (R.meaning rack.new) }
    {
        let weights = weights_on(self.field, &self.repair.group, self.module);
        for offset in 0..len {
            self.restore_at(rack, offset, weights);
        }
    }
}

/// A module that is fitted again: the kind of its settled groups, and the modules that count as out.
#[derive(Drop)]
struct Refitting<'a, F: Field> {
    plan: Plan,
    field: &'a F,
    kind: Kind,
    module: u16,
    out: [bool; 32],
}

impl<F: Field> Refitting<'_, F> {
    /// Whether a group that is there has a piece on the module.
    fn has_piece(&self, index: u16) -> bool
        ensures { index < groups (scheme_of self.now.plan) self.now.kind → result ≡ holds_piece (scheme_of self.now.plan) self.now.kind self.now.«module» index }
    {
        match Group::of(&self.plan, self.kind, index) {
            Some(group) => {
                has_chunk(&group, self.module) || parity_on(&group, self.module).is_some()
            }
            None => false,
        }
    }

    /// Whether a group that is there has a piece on the module, and misses more pieces than it has parities.
    fn cannot_restore(&self, index: u16) -> bool
        ensures { index < groups (scheme_of self.now.plan) self.now.kind → result ≡ (holds_piece (scheme_of self.now.plan) self.now.kind self.now.«module» index && beyond (scheme_of self.now.plan) self.now.kind (flags self.now.out) index) }
    {
        self.has_piece(index) && is_beyond(&self.plan, self.kind, index, self.out)
    }

    /// The lowest group that has a piece on the module, and misses more pieces than it has parities.
    fn first_beyond(&self) -> Option<u16>
        ensures { result ≡ lowest (λ i. holds_piece (scheme_of self.now.plan) self.now.kind self.now.«module» i && beyond (scheme_of self.now.plan) self.now.kind (flags self.now.out) i) (groups (scheme_of self.now.plan) self.now.kind) }
    {
        (0..self.kind.groups(&self.plan)).find(|index| self.cannot_restore(*index))
    }

    /// Rebuilds the pieces of a group that are on the module, if there are any.
    fn restore_group<R: Rack>(&self, rack: &mut R, index: u16)
        ensures { R.valid rack.old → R.valid rack.new × ((F.arithmetic self.now.field.now).order ≡ self.now.plan.order → Goes_on (F.arithmetic self.now.field.now) (scheme_of self.now.plan) self.now.kind (flags self.now.out) self.now.«module» index (R.meaning rack.old) (R.meaning rack.new)) }
    {
        if !self.has_piece(index) {
            return;
        }
        if let Ok(repair) = prepare(&self.plan, self.field, self.kind, index, self.out) {
            let group = Restoring {
                field: self.field,
                repair,
                module: self.module,
            };
            group.restore(rack, self.plan.len);
        }
    }

    /// Rebuilds the pieces of all groups that are on the module.
    fn restore<R: Rack>(&self, rack: &mut R)
        ensures { R.valid rack.old → R.valid rack.new × ((F.arithmetic self.now.field.now).order ≡ self.now.plan.order → GoesThrough (F.arithmetic self.now.field.now) (scheme_of self.now.plan) self.now.kind (flags self.now.out) self.now.«module» (groups (scheme_of self.now.plan) self.now.kind) (R.meaning rack.old) (R.meaning rack.new)) }
    {
        for index in 0..self.kind.groups(&self.plan) {
            self.restore_group(rack, index);
        }
    }
}

impl<F: Field, R: Rack> Pool<F, R> {
    /// Fits a module that is out again, and rebuilds its settled pieces. Its other slots are zero. Refused where there is no such
    /// module, where it is fitted, and where one of its settled groups misses more pieces than it has parities.
    pub fn refit(&mut self, module: u16) -> Result<(), Refusal>
        ensures { Obeys F.arithmetic R.valid R.meaning self.old self.new (Refit «module») (of_done result) }
    {
        if module >= self.plan.modules() {
            return Err(Refusal::NoModule(module));
        }
        if self.rack.ask(module) {
            return Err(Refusal::AlreadySo(module));
        }
        let refitting = Refitting {
            plan: self.plan,
            field: &self.field,
            kind: self.phase.settled(),
            module,
            out: outs(&self.rack, &self.plan),
        };
        if let Some(i) = refitting.first_beyond() {
            return Err(Refusal::BeyondRepair(i));
        }
        let _ = self.rack.fit(module);
        refitting.restore(&mut self.rack);
        Ok(())
    }
}
