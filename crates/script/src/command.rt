// The commands of a script.
ghost use Rattle.std.specs.Prelude.{◌≡◌};

use pool::kinds::Call;
use rack::Size;

/// A command of a script.
#[derive(Clone, Copy)]
pub enum Command {
    /// sets the plan that later lines use: order, d, r, d', r', length
    Plan(u16, u16, u16, u16, u16, u16),
    /// shows where the chunks lie and what a changeover reads
    Map,
    /// shows the label of the plan, before its changeover or after it
    Label(bool),
    /// makes a rack that later lines use
    Rack(RackKind, Size),
    /// a call on the rack
    OnRack(RackCall),
    /// lays a pool over the rack
    Lay(FieldKind),
    /// opens a pool over the rack by its label; none where there are not 16 bytes of it
    Open(FieldKind, Option<[u8; 16]>),
    /// a call on the pool
    OnPool(Call),
    /// shows how the pool stands, and its memory
    Show,
    /// shows the label of the pool
    PoolLabel,
}

impl Command {
    ghost use Rattle.script.specs.Script.{of_pools};

    /// Whether this is a command of pools, and none of plans, labels and racks.
    // By hand, all variants named, so that a new one has to be placed.
    pub fn is_of_pools(&self) -> bool
        ensures { result ≡ of_pools self.now }
    {
        match self {
            Command::Plan(..)
            | Command::Map
            | Command::Label(_)
            | Command::Rack(..)
            | Command::OnRack(_) => false,
            Command::Lay(_)
            | Command::Open(..)
            | Command::OnPool(_)
            | Command::Show
            | Command::PoolLabel => true,
        }
    }
}

/// The three fields.
#[derive(Clone, Copy, PartialEq, Eq, Debug)]
pub enum FieldKind {
    Byte,
    Nibble,
    Prime,
}

/// The two kinds of rack.
#[derive(Clone, Copy, PartialEq, Eq, Debug)]
pub enum RackKind {
    Flat,
    Turning,
}

/// A call on a rack.
#[derive(Clone, Copy, PartialEq, Eq, Debug)]
pub enum RackCall {
    /// module, slot and offset
    Get(u16, u16, u16),
    /// module, slot, offset and symbol
    Put(u16, u16, u16, u16),
    Pull(u16),
    Fit(u16),
    Ask(u16),
}

/// The name of a command.
#[derive(Clone, Copy)]
pub enum Name {
    Plan,
    Map,
    Label,
    Rack,
    Get,
    Put,
    PullModule,
    FitModule,
    Ask,
    Lay,
    Open,
    Read,
    Write,
    Pull,
    Refit,
    Begin,
    Carry,
    Ready,
    Close,
    Drop,
    Show,
}

impl Name {
    ghost use Rattle.script.specs.Script.{pools_alone};

    // Whether it is a name of commands of pools alone. A label may be that of a plan, and that of a pool.
    pub(crate) fn is_of_pools(self) -> bool
        ensures { result ≡ pools_alone self }
    {
        match self {
            Name::Plan
            | Name::Map
            | Name::Label
            | Name::Rack
            | Name::Get
            | Name::Put
            | Name::PullModule
            | Name::FitModule
            | Name::Ask => false,
            Name::Lay
            | Name::Open
            | Name::Read
            | Name::Write
            | Name::Pull
            | Name::Refit
            | Name::Begin
            | Name::Carry
            | Name::Ready
            | Name::Close
            | Name::Drop
            | Name::Show => true,
        }
    }
}
