// The head of a message: its name, and in a response its status.
ghost use Rattle.std.specs.Prelude.{◌≡◌};
ghost use Rattle.message.specs.Message.{is_name, head_length, head_good};

use answer::digits::is_digit;

fn is_name(b: u8) -> bool
    ensures { result ≡ is_name b }
{
    matches!(b, 0x41..=0x5a)
}

pub(crate) fn head_length(response: bool) -> usize
    ensures { result ≡ head_length response }
{
    if response { 6 } else { 3 }
}

// Whether `head` is the whole head of a response, three name bytes and three status digits, or of a command, the name alone.
#[tactic(auto, unfolding(crate::specs::Message::head_good))]
pub(crate) fn head_good(head: &[u8], response: bool) -> bool
    ensures { result ≡ head_good response head.now }
{
    match (response, head) {
        (false, &[a, b, c]) => is_name(a) & (is_name(b) & is_name(c)),
        (true, &[a, b, c, x, y, z]) => {
            (is_name(a) & (is_name(b) & is_name(c))) & (is_digit(x) & (is_digit(y) & is_digit(z)))
        }
        _ => false,
    }
}
