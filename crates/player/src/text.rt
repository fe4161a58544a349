// The texts of the answers.
ghost use Rattle.std.specs.Prelude.{◌≡◌, ◌<◌, [], ◌∷◌, ◌++◌, IfOk, Some, string_bytes, codes};
ghost use Rattle.layout.specs.Labels.{label_of};
ghost use Rattle.layout.specs.Placing.{rows_of, stripes_of, chunk_at, home_of};
ghost use Rattle.player.specs.Texts.{hex_text, row_text, counts_text, map_text};
ghost use Rattle.std.specs.Char.{digit_char};
ghost use Rattle.std.specs.Fmt.{DisplaysOnOk};

use layout::label::{LABEL_BYTES, Label};
use layout::plan::Plan;
use std::alloc::{AllocError, Global};
use std::fmt;

// The chunk in a cell.
fn chunk_in(plan: &Plan, row: u16, column: u16) -> u16
    requires row { row < rows_of plan.now.d plan.now.d2 }
    requires column { column < plan.now.d2 }
    ensures { result ≡ chunk_at plan.now.d plan.now.d2 row column }
{
    plan.chunk_at(row, column).unwrap()
}

// The home row of a stripe.
fn home_of(plan: &Plan, stripe: u16) -> u16
    requires { stripe < stripes_of plan.now.d plan.now.d2 }
    ensures { result ≡ home_of plan.now.d plan.now.d2 stripe }
{
    plan.home(stripe).unwrap()
}

// A line with the chunks of a row.
fn write_row<W: fmt::Write>(plan: &Plan, row: u16, f: &mut fmt::Formatter<W>) -> fmt::Result
    requires { row < rows_of plan.now.d plan.now.d2 }
    ensures { DisplaysOnOk W.write_str_gives f.old result (Some (row_text plan.now row)) f.new }
{
    write!(f, "\nrow {row}:")?;
    for column in 0..plan.d2 {
        let chunk = chunk_in(plan, row, column);
        write!(f, " {chunk}")?;
    }
    Ok(())
}

// Two lines with what a changeover reads, and what encoding all anew would read.
fn write_counts<W: fmt::Write>(plan: &Plan, f: &mut fmt::Formatter<W>) -> fmt::Result
    ensures { DisplaysOnOk W.write_str_gives f.old result (Some (counts_text plan.now)) f.new }
{
    let (data, parities) = plan.counts();
    let chunks = plan.chunks();
    write!(
        f,
        "\ncounts: {data} data, {parities} parities\nre-encoding: {chunks} data"
    )
}

/// Where the chunks of a plan lie, and what its changeover reads.
#[derive(Clone, Copy)]
pub struct Map<'a>(pub &'a Plan);

impl fmt::Display for Map<'_> {
    ghost output = { λ m. Some (map_text m.0.now) };

    fn fmt<W: fmt::Write>(&self, f: &mut fmt::Formatter<W>) -> fmt::Result {
        let plan = self.0;
        let chunks = plan.chunks();
        let stripes = plan.stripes();
        let rows = plan.rows();
        let modules = plan.modules();
        let slots = plan.slots();
        write!(
            f,
            "l {chunks}, stripes {stripes}, rows {rows}, modules {modules}, slots {slots}"
        )?;
        for row in 0..rows {
            write_row(plan, row, f)?;
        }
        write!(f, "\nhome:")?;
        for stripe in 0..stripes {
            let row = home_of(plan, stripe);
            write!(f, " {row}")?;
        }
        write_counts(plan, f)
    }
}

// A hexadecimal digit. By a table: `{byte:02x}` fills to a width too, and that takes longer than all else that a line does.
fn hex_digit(digit: u8) -> &'static str
    requires { digit < 16 }
    ensures { result.now ≡ digit_char digit ∷ [] }
{
    match digit {
        0 => "0",
        1 => "1",
        2 => "2",
        3 => "3",
        4 => "4",
        5 => "5",
        6 => "6",
        7 => "7",
        8 => "8",
        9 => "9",
        10 => "a",
        11 => "b",
        12 => "c",
        13 => "d",
        14 => "e",
        15 => "f",
        _ => unreachable!(),
    }
}

// Bytes, each as two hexadecimal digits after a space.
fn write_bytes<W: fmt::Write>(bytes: &[u8], f: &mut fmt::Formatter<W>) -> fmt::Result
    ensures { DisplaysOnOk W.write_str_gives f.old result (Some (hex_text bytes.now)) f.new }
{
    for byte in bytes {
        f.write_str(" ")?;
        f.write_str(hex_digit(*byte / 16))?;
        f.write_str(hex_digit(*byte % 16))?;
    }
    Ok(())
}

/// The bytes of a label.
#[derive(Clone, Copy)]
pub struct LabelBytes(pub Label);

impl fmt::Display for LabelBytes {
    ghost output = { λ l. Some (hex_text (label_of l.0)) };

    fn fmt<W: fmt::Write>(&self, f: &mut fmt::Formatter<W>) -> fmt::Result {
        let mut bytes = [0u8; LABEL_BYTES];
        let _ = self.0.write(&mut bytes);
        write_bytes(&bytes, f)
    }
}

/// The text of a label.
pub fn label(heap: Global, label: Label) -> Result<String, AllocError>
    ensures { IfOk result (λ s. string_bytes s ≡ codes "ok" ++ hex_text (label_of label)) }
{
    let bytes = LabelBytes(label);
    format!(in heap; "ok{bytes}")
}
