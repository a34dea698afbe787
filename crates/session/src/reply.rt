// Writing an answer into the lent bytes.
ghost use Rattle.std.specs.Prelude.{◌≡◌, ◌≤◌, [], length, take};
ghost use Rattle.wire.specs.Answered.{Follows, answered, written_answer};

use wire::answer::{Answer, write_answer};

// Writes an answer that no bookings follow, and says how many bytes it has.
pub(crate) fn write_plain(bytes: &mut [u8], answer: Answer) -> usize
    requires room { 17 ≤ length bytes.old }
    requires plain { Follows answer [] }
    ensures { take result bytes.new ≡ written_answer (answered answer []) }
{
    let Some(end) = write_answer(bytes, answer) else {
        unreachable()
    };
    end
}
