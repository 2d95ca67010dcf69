// Text put behind what a buffer has in use. Each function answers how much is in use then; what
// does not fit is left out.
// A buffer and how much of it is used: this crate has no heap, and put_text's contract says both.
ghost use Rattle.std.specs.Prelude.{◌≡◌};
ghost use Rattle.lines.specs.Line.{line, put_byte, written};
ghost use Rattle.lines.specs.Text.{decimal as decimal_text};

// The byte, where there is room for it.
#[tactic(auto, unfolding(crate::specs::Line::put_byte, words::specs::Choice::choose))]
fn put_byte(out: &mut [u8], used: usize, byte: u8) -> usize
    ensures { line result out.new ≡ put_byte byte (line used out.old) }
{
    if used < out.len() {
        out[used] = byte;
        return used + 1;
    }
    used
}

// The text as it is.
pub fn put_text(out: &mut [u8], used: usize, text: &[u8]) -> usize
    ensures { line result out.new ≡ written text.now (line used out.old) }
{
    let mut end = used;
    for &byte in text {
        end = put_byte(out, end, byte);
    }
    end
}

// A number in decimal.
pub fn put_number(out: &mut [u8], used: usize, number: u64) -> usize
    ensures { line result out.new ≡ written (decimal_text number) (line used out.old) }
{
    let mut digits = [0u8; 20];
    let count = io::decimal(number, &mut digits);
    put_text(out, used, &digits[..count])
}
