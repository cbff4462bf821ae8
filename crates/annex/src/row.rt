ghost use Rattle.std.specs.Prelude.{◌≡◌, Some, None, MatchOption};
ghost use Rattle.annex.specs.Rows.{SaysRow, amounts, read_row};

use text::read_euros;

/// A row of the tick table: where it starts and the step of each of six liquidity bands, in ten-thousandths of a euro.
#[derive(Clone, Copy)]
pub struct Row {
    pub start: u64,
    pub steps: [u64; 6],
}

/// A row as text: seven amounts of decimal euros parted by semicolons. None where the text is anything else.
// Bytes, here and in whoever asks for a row, since a line of input may hold any.
#[tactic(auto, using(crate::proofs::Fields::row_reads, crate::proofs::Fields::row_of_seven))]
pub fn read_row(line: &[u8]) -> Option<Row>
    ensures value { result ≡ read_row line.now }
    ensures says { MatchOption result ((row : Row) → SaysRow line.now row → ⊥) (SaysRow line.now) }
{
    let [start, first, second, third, fourth, fifth, sixth] = read_amounts(line)?;
    Some(Row {
        start,
        steps: [first, second, third, fourth, fifth, sixth],
    })
}

// Seven amounts of decimal euros parted by semicolons. None where the text is anything else.
#[tactic(auto, using(crate::proofs::Reading::seven_start))]
fn read_amounts(line: &[u8]) -> Option<[u64; 7]>
    ensures { result ≡ amounts 6 line.now }
{
    // The seventh is all that follows the sixth semicolon: with another in it, it is no amount.
    let mut fields = line.splitn(7, |byte| *byte == b';');
    let mut amounts = [0; 7];
    for amount in &mut amounts {
        *amount = read_euros(fields.next()?)?;
    }
    Some(amounts)
}
