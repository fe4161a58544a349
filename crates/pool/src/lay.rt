// Laying a pool over a memory, opening one by its label, and giving the memory back.
ghost use Rattle.std.specs.Prelude.{◌≡◌, IfOk, None};
ghost use Rattle.coding.specs.Schemes.{scheme_of};
ghost use Rattle.layout.specs.Labels.{label_of, Writes, ReadsBack};
ghost use Rattle.pool.specs.Agrees.{Agrees};
ghost use Rattle.pool.specs.Book.{blank};
ghost use Rattle.pool.specs.Openings.{why_not, fit_refusal, lay_refusal, open_refusal, laid_over, opened, label_in};
ghost use Rattle.pool.specs.Pools.{Held, standing};

use crate::kinds::Phase;
use crate::pool::Pool;
use crate::sweep::{all_fitted, clear_block};
use field::Field;
use layout::label::Label;
use layout::plan::Plan;
use layout::refusal::Refusal;
use rack::rack::Rack;

/// Whether a field and a rack fit a plan: their orders first, then the rack's modules, slots and offsets.
fn check_fit<F: Field, R: Rack>(plan: &Plan, field: &F, rack: &R) -> Result<(), Refusal>
    ensures { why_not result ≡ fit_refusal plan.now (F.arithmetic field.now).order (R.meaning rack.now) }
{
    if field.order() != plan.order {
        return Err(Refusal::DoesNotFit(1));
    }
    if rack.order() != plan.order {
        return Err(Refusal::DoesNotFit(2));
    }
    if rack.modules() < plan.modules() {
        return Err(Refusal::DoesNotFit(3));
    }
    if rack.slots() < plan.slots() {
        return Err(Refusal::DoesNotFit(4));
    }
    if rack.length() < plan.len {
        return Err(Refusal::DoesNotFit(5));
    }
    Ok(())
}

// A plan, a field and a rack are all that a pool is made of, so each of these takes the three; a struct of them would be a pool that is
// not laid. A rack that is valid is asked for of callers, since the trait's calls promise nothing of another.
impl<F: Field, R: Rack> Pool<F, R> {
    /// Says whether a pool can be laid: the field and the rack fit the plan, and every module of the plan is fitted.
    pub fn check_lay(plan: &Plan, field: &F, rack: &R) -> Result<(), Refusal>
        ensures { R.valid rack.now → why_not result ≡ lay_refusal plan.now (F.arithmetic field.now).order (R.meaning rack.now) }
    {
        check_fit(plan, field, rack)?;
        all_fitted(rack, plan.modules())
    }

    /// Lays a pool over a rack that the check does not refuse. Every symbol of the pool is 0.
    pub fn lay(plan: Plan, field: F, rack: R) -> Pool<F, R>
        requires valid { R.valid rack }
        requires fits { lay_refusal plan (F.arithmetic field).order (R.meaning rack) ≡ None }
        ensures held { Held F.arithmetic R.valid R.meaning result }
        ensures same_plan { result.plan ≡ plan }
        ensures same_field { result.field ≡ field }
        ensures stands { standing F.arithmetic R.valid R.meaning result ≡ laid_over plan (R.meaning rack) }
        ensures agrees { Agrees (F.arithmetic field) (scheme_of plan) (standing F.arithmetic R.valid R.meaning result) blank }
    {
        let mut rack = rack;
        let modules = plan.modules();
        let slots = plan.slots();
        clear_block(&mut rack, 0, modules, 0, slots, plan.len);
        Pool {
            plan,
            field,
            rack,
            phase: Phase::Before,
            carried: 0,
        }
    }

    /// Reads a label, and says whether the pool of that label can be opened: the field and the rack fit its plan. Modules may be out.
    pub fn check_open(bytes: &[u8], field: &F, rack: &R) -> Result<Label, Refusal>
        ensures why { why_not result ≡ open_refusal bytes.now (F.arithmetic field.now).order (R.meaning rack.now) }
        ensures label { IfOk result (λ m. bytes.now ≡ label_of m) }
        ensures fits { IfOk result (λ m. fit_refusal m.plan (F.arithmetic field.now).order (R.meaning rack.now) ≡ None) }
    {
        let label = Label::read(bytes)?;
        check_fit(&label.plan, field, rack)?;
        Ok(label)
    }

    /// Opens the pool of a label over a rack that the check does not refuse. It writes nothing.
    pub fn open(label: Label, field: F, rack: R) -> Pool<F, R>
        requires valid { R.valid rack }
        requires fits { fit_refusal label.plan (F.arithmetic field).order (R.meaning rack) ≡ None }
        ensures held { Held F.arithmetic R.valid R.meaning result }
        ensures is { result ≡ opened label field rack }
    {
        Pool {
            plan: label.plan,
            field,
            rack,
            phase: Phase::opened(label.after),
            carried: 0,
        }
    }

    /// The label by which the pool is opened again: its plan, and whether it is after its changeover.
    pub fn label(&self) -> Label
        ensures { result ≡ label_in self.now }
    {
        Label {
            plan: self.plan,
            after: self.phase == Phase::After,
        }
    }

    /// Writes the label into a buffer of 16 bytes.
    pub fn write_label(&self, bytes: &mut [u8]) -> Result<(), Refusal>
        ensures writes { Writes (label_in self.now) bytes.old bytes.new result }
        ensures back { ReadsBack (label_in self.now) }
    {
        self.label().write(bytes)
    }
}

impl<F: Field + Drop, R: Rack> Pool<F, R> {
    /// Ends the pool, and gives the rack back.
    pub fn into_rack(self) -> R
        ensures { result ≡ self.rack }
    {
        let Pool {
            plan: _,
            field: _,
            rack,
            phase: _,
            carried: _,
        } = self;
        rack
    }
}
