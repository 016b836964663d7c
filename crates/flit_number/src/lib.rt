// Four kinds of number that are never used one for the other (01, "Numbers"): a sequence number, a count of flits, the last
// number received and the next one wanted. Each is a type of its own, and what stands below are the only ways between them.

#![tactic(auto)]

ghost use Rattle.std.specs.Prelude.{◌≡◌};
ghost use Rattle.flit_number.specs.Numbers.{width, after, difference, last_received, acknowledge_for, wanted_by};

// The number of a TL flit, modulo 65536.
#[derive(Clone, Copy, PartialEq, Eq)]
pub struct SequenceNumber(pub u16);

// A count of flits.
#[derive(Clone, Copy, PartialEq, Eq)]
pub struct FlitCount(pub usize);

// The number of the last TL flit received.
#[derive(Clone, Copy, PartialEq, Eq)]
pub struct LastReceived(pub u16);

// The number of the next TL flit wanted.
#[derive(Clone, Copy, PartialEq, Eq)]
pub struct NextWanted(pub u16);

// The number of the flit that stands `flits` after flit `from`.
#[tactic(auto, unfolding(crate::specs::Numbers::after))]
pub fn number_after(from: SequenceNumber, flits: FlitCount) -> SequenceNumber
    ensures { result.0 ≡ after width from.0 flits.0 }
{
    let n = (flits.0 % 65536) as u16;
    SequenceNumber(from.0.wrapping_add(n))
}

// How many flits lead from flit `from` up to flit `to`.
#[tactic(auto, unfolding(crate::specs::Numbers::difference))]
pub fn flits_between(from: SequenceNumber, to: SequenceNumber) -> FlitCount
    ensures { result.0 ≡ difference width to.0 from.0 }
{
    FlitCount(to.0.wrapping_sub(from.0) as usize)
}

// One step back and one on have a name and a definition each, and are no From: which of them an acknowledge number is goes by the edition
// (condition A).
// The last number received by an end that wants `wanted` next.
#[tactic(auto, unfolding(crate::specs::Numbers::acknowledge_for, crate::specs::Numbers::difference))]
pub fn last_received(wanted: NextWanted) -> LastReceived
    ensures { result.0 ≡ acknowledge_for last_received width wanted.0 }
{
    LastReceived(wanted.0.wrapping_sub(1))
}

// The number wanted next by an end whose last number received is `last`.
#[tactic(auto, unfolding(crate::specs::Numbers::wanted_by, crate::specs::Numbers::after))]
pub fn next_wanted(last: LastReceived) -> NextWanted
    ensures { result.0 ≡ wanted_by last_received width last.0 }
{
    NextWanted(last.0.wrapping_add(1))
}

// The sequence number of the flit that is wanted.
impl From<NextWanted> for SequenceNumber {
    ghost from_gives = { λ wanted number. number.0 ≡ wanted.0 };

    fn from(wanted: NextWanted) -> SequenceNumber {
        SequenceNumber(wanted.0)
    }
}

// The flit of this number is the next one wanted.
impl From<SequenceNumber> for NextWanted {
    ghost from_gives = { λ number wanted. wanted.0 ≡ number.0 };

    fn from(number: SequenceNumber) -> NextWanted {
        NextWanted(number.0)
    }
}
