// The words of ends, fields and counts.

#![tactic(auto)]

ghost use Rattle.std.specs.Prelude.{◌≡◌, map};
ghost use Rattle.drive_name.specs.Names.{beside, end_of, field_of, most as most_of, key_of};

// The end that a command is for.
#[derive(Clone, Copy)]
pub enum Which {
    A,
    B,
}

// The fields of the state that poke sets, by the names of the output line.
#[derive(Clone, Copy)]
pub enum EndField {
    Capacity,
    First,
    Held,
    Kept,
    Oldest,
    Cursor,
    Sent,
    Acked,
    Wanted,
    Position,
    Owed,
    Stalled,
    Data,
    Untold,
    Mode,
    Cause,
    Discards,
    Pending,
    Info(usize),
}

// The counts of the ticket that count sets.
#[derive(Clone, Copy)]
pub enum Key {
    Accepted,
    Delivered,
    Damaged,
    Duplicate,
    Downs,
}

// The end that a token names, if it names one.
#[tactic(auto, unfolding(crate::specs::Names::end_of))]
pub fn end_named(token: &[u8]) -> Option<Which>
    ensures { result ≡ end_of token.now }
{
    named(token, &[("a", Which::A), ("b", Which::B)])
}

// The field of the state that a token names.
#[tactic(auto, unfolding(crate::specs::Names::field_of))]
pub fn field_named(token: &[u8]) -> Option<EndField>
    ensures { result ≡ field_of token.now }
{
    let fields = [
        ("capacity", EndField::Capacity),
        ("first", EndField::First),
        ("held", EndField::Held),
        ("kept", EndField::Kept),
        ("oldest", EndField::Oldest),
        ("cursor", EndField::Cursor),
        ("sent", EndField::Sent),
        ("acked", EndField::Acked),
        ("wanted", EndField::Wanted),
        ("position", EndField::Position),
        ("owed", EndField::Owed),
        ("stalled", EndField::Stalled),
        ("data", EndField::Data),
        ("untold", EndField::Untold),
        ("mode", EndField::Mode),
        ("cause", EndField::Cause),
        ("discards", EndField::Discards),
        ("pending", EndField::Pending),
        ("info0", EndField::Info(0)),
        ("info1", EndField::Info(1)),
        ("info2", EndField::Info(2)),
        ("info3", EndField::Info(3)),
        ("info4", EndField::Info(4)),
        ("info5", EndField::Info(5)),
        ("info6", EndField::Info(6)),
        ("info7", EndField::Info(7)),
    ];
    named(token, &fields)
}

// The largest value of a field.
#[tactic(auto, unfolding(crate::specs::Names::most))]
pub fn most(f: EndField) -> u64
    ensures { result ≡ most_of f }
{
    match f {
        EndField::Info(_) => u64::MAX,
        EndField::Mode => 2,
        EndField::Stalled | EndField::Pending => 1,
        EndField::Cause => 255,
        _ => 65535,
    }
}

// The count that a token names.
#[tactic(auto, unfolding(crate::specs::Names::key_of))]
pub fn key_named(token: &[u8]) -> Option<Key>
    ensures { result ≡ key_of token.now }
{
    let keys = [
        ("accepted", Key::Accepted),
        ("delivered", Key::Delivered),
        ("damaged", Key::Damaged),
        ("duplicate", Key::Duplicate),
        ("downs", Key::Downs),
    ];
    named(token, &keys)
}

// What stands beside the word that a token is.
fn named<T: Copy>(token: &[u8], table: &[(&str, T)]) -> Option<T>
    ensures { result ≡ beside token.now (map (λ p. (p.0.now, p.1)) table.now) }
{
    for (word, value) in table {
        if drive_token::is(token, word.as_bytes()) {
            return Some(*value);
        }
    }
    None
}
