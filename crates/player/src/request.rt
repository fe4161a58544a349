// What a line of a script answers and asks for.
ghost use Rattle.std.specs.Prelude.{◌≡◌, None};

use layout::label::Label;
use layout::plan::Plan;
use rack::Size;
use script::command::{FieldKind, RackKind};

/// A rack that a line asks for.
#[derive(Clone, Copy)]
pub struct RackRequest {
    pub kind: RackKind,
    pub size: Size,
}

/// What a line wants a pool to be started by.
#[derive(Clone, Copy)]
pub enum Wanted {
    /// laid by a plan
    Lay(Plan),
    /// opened by the bytes of a label; none where there are not 16 of them
    Open(Option<[u8; 16]>),
}

/// What starts a pool.
#[derive(Clone, Copy)]
pub enum By {
    /// the plan that it is laid by
    Plan(Plan),
    /// the label that it is opened by
    Label(Label),
}

/// How a pool is started over the rack in use: over which field, and by what.
#[derive(Clone, Copy)]
pub struct Start {
    pub field: FieldKind,
    pub by: By,
}

/// What takes the place of what is in use.
#[derive(Clone, Copy)]
pub enum Request {
    Rack(RackRequest),
    Pool(Start),
}

/// What a line answers, and what it asks for.
#[derive(Drop)]
pub struct Response {
    pub text: String,
    pub request: Option<Request>,
}

impl Response {
    /// An answer that asks for nothing.
    pub fn only(text: String) -> Response
        ensures text { result.text ≡ text }
        ensures request { result.request ≡ None }
    {
        Response {
            text,
            request: None,
        }
    }
}
