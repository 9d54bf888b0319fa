//! Change identifiers of the form `<UUID>/<number>`, as VMware's changed block tracking has them.
//! Here the UUID packs the machine, the disk and how often the disk's tracking was reset, and the
//! number counts the disk's snapshots since tracking was enabled and, where it was reset, since the
//! last reset.
//!
//! What a list of happenings says of a disk's tracking, for any list, is defined in
//! `specs/History.antt`, and of what was told on of a list in `specs/Filtered.antt`. The laws on
//! them are the contracts of the functions with type parameters below.
#![tactic(auto)]

ghost use Rattle.std.specs.Prelude.{◌≡◌, ◌≤◌, ◌<◌, ◌↔◌, ◌==◌, Contains, IfNone, IfSome, IsTrue, MatchOption, position, slice_index, decimal, drop, length, take};
ghost use Rattle.std.specs.Str.{IsAscii};
ghost use Rattle.change_id.specs.declared.ChangeId.{ChangeId};
ghost use Rattle.change_id.specs.ChangeId.{refusal_number, packed, counted_id, spelling, uuid_text, uuid_part, number_part, IsUuidText, IsNumberText, IsAnswer, Spells, LacksSlash, LacksUuid, LacksNumber, slash};
ghost use Rattle.change_id.specs.Filtered.{TellingsAreRead, FilteredListsReadTheSame, FilteredListsAnswerTheSame};
ghost use Rattle.change_id.specs.HistoryLaws.{NumbersHaveNoGap, NumbersDiffer, IdsHaveOneMark, LaterEntriesKeep, SnapshotsKeepTheEpoch};
ghost use Rattle.change_id.specs.Laws.{OneAnswer, WrittenParses, SpellingsDiffer, PackingsFit, PackingsDiffer};

use std::error::Error;
use std::fmt;
use uuid::Uuid;

/// The bytes of a hyphenated UUID.
pub const UUID_BYTES: usize = 36;

/// The most decimal digits that a `u64` has.
const MAX_DIGITS: usize = 20;

/// The most bytes of an identifier's spelling: a UUID, a slash and the digits of a number.
pub const MAX_ID_BYTES: usize = UUID_BYTES + 1 + MAX_DIGITS;

/// A disk's state at one of its snapshots.
#[derive(Clone, Copy, Debug, PartialEq, Eq)]
pub struct ChangeId {
    /// What [`pack`] gives for the machine, the disk and its resets.
    pub uuid: u128,
    /// The number of the snapshot, from 1 on, since tracking was enabled and, where it was reset,
    /// since the last reset.
    pub seq: u64,
}

/// From when on a query asks for the changed areas.
#[derive(Clone, Copy, Debug, PartialEq, Eq)]
pub enum Since {
    /// From the beginning on.
    All,
    /// From the snapshot of this identifier on.
    From(ChangeId),
}

/// Why a text is no identifier.
#[derive(Clone, Copy, Debug, PartialEq, Eq)]
pub enum IdRefused {
    /// It has no slash.
    Form,
    /// What stands before the first slash is no lower-case hyphenated UUID.
    Uuid,
    /// What stands after it is no decimal number from 1 to 2^64 - 1, or has a leading zero.
    Number,
}

impl IdRefused {
    /// The number of the refusal, 1 to 3.
    pub fn number(&self) -> u8
        ensures { result ≡ refusal_number self.now }
    {
        match self {
            IdRefused::Form => 1,
            IdRefused::Uuid => 2,
            IdRefused::Number => 3,
        }
    }
}

impl fmt::Display for IdRefused {
    fn fmt<W: fmt::Write>(&self, f: &mut fmt::Formatter<W>) -> fmt::Result {
        match self {
            IdRefused::Form => write!(f, "a change identifier has a slash"),
            IdRefused::Uuid => write!(f, "no lower-case hyphenated UUID before the slash"),
            IdRefused::Number => write!(f, "no number from 1 to 2^64 - 1 after the slash"),
        }
    }
}

impl Error for IdRefused {}

/// The UUID of a disk's identifiers, as a number: from the highest bit on, 32 bits for the machine,
/// 32 for the disk, and 64 for how often the disk's tracking was reset.
pub fn pack(machine: u32, disk: u32, resets: u64) -> u128
    ensures { result ≡ packed machine disk resets }
{
    (u128::from(machine) << 96) + (u128::from(disk) << 64) + u128::from(resets)
}

/// The identifier of this UUID where so many snapshots were counted. None where none was.
pub fn counted_id(uuid: u128, seq: u64) -> Option<ChangeId>
    ensures { result ≡ counted_id uuid seq }
{
    if seq == 0 {
        return None;
    }
    Some(ChangeId { uuid, seq })
}

/// Reads the one spelling that [`write_to`] writes. A refusal names the first part that is wrong,
/// from the front: [`IdRefused::Form`] where there is no slash, [`IdRefused::Uuid`] for what
/// stands before the first one, [`IdRefused::Number`] for what stands after it.
pub fn parse(text: &[u8]) -> Result<ChangeId, IdRefused>
    ensures answer { IsAnswer text.now result }
    ensures spelled { (id : ChangeId) → Spells text.now id → result ≡ Ok id }
    ensures form { (result ≡ Err IdRefused.Form) ↔ LacksSlash text.now }
    ensures uuid { (result ≡ Err IdRefused.Uuid) ↔ LacksUuid text.now }
    ensures number { (result ≡ Err IdRefused.Number) ↔ LacksNumber text.now }
{
    let (front, back) = split_at_slash(text).ok_or(IdRefused::Form)?;
    let uuid = parse_uuid(front).ok_or(IdRefused::Uuid)?;
    let seq = parse_number(back).ok_or(IdRefused::Number)?;
    Ok(ChangeId { uuid, seq })
}

/// Writes the one spelling of `id` to the front of `out`, and gives its length in bytes. It is
/// ASCII, and the rest of `out` stays as it was. An identifier with the number 0 is written too,
/// but [`parse`] reads none such.
pub fn write_to(id: &ChangeId, out: &mut [u8; MAX_ID_BYTES]) -> usize
    ensures text { take result out.new ≡ spelling id.now.uuid id.now.seq }
    ensures spells { 1 ≤ id.now.seq → Spells (take result out.new) id.now }
    ensures ascii { IsAscii (take result out.new) }
    ensures rest { drop result out.new ≡ drop result out.old }
    ensures fits { result ≤ MAX_ID_BYTES }
{
    let mut buffer = [0; UUID_BYTES];
    let uuid = Uuid::from_u128(id.uuid)
        .hyphenated()
        .encode_lower(&mut buffer);
    out[..UUID_BYTES].copy_from_slice(uuid.as_bytes());
    out[UUID_BYTES] = b'/';
    let (digits, start) = decimal_digits(id.seq);
    let end = MAX_ID_BYTES - start;
    out[UUID_BYTES + 1..end].copy_from_slice(&digits[start..]);
    end
}

// What stands before the first slash, and after it.
fn split_at_slash(text: &[u8]) -> Option<(&[u8], &[u8])>
    ensures { MatchOption result (LacksSlash text.now) (λ x. Contains text.now slash
        × (x.0.now ≡ uuid_part text.now) × (x.1.now ≡ number_part text.now)) }
{
    let at = first_slash(text)?;
    Some((&text[..at], &text[at + 1..]))
}

fn first_slash(text: &[u8]) -> Option<usize>
    ensures place { result ≡ position (λ b. b == slash) text.now }
    ensures within { IfSome result (λ at. at < length text.now) }
    ensures none { IfNone result (LacksSlash text.now) }
{
    text.iter().position(|b| *b == b'/')
}

// The UUID of a lower-case hyphenated text. The crate `uuid` reads other forms and upper case
// too, so its text is compared with what was read.
fn parse_uuid(text: &[u8]) -> Option<u128>
    ensures { MatchOption result (¬ (IsUuidText text.now)) (λ uuid. text.now ≡ uuid_text uuid) }
{
    let uuid = Uuid::try_parse_ascii(text).ok()?;
    let mut buffer = [0; UUID_BYTES];
    let lower = uuid.hyphenated().encode_lower(&mut buffer);
    if lower.as_bytes() == text {
        Some(uuid.as_u128())
    } else {
        None
    }
}

// The number of a text of decimal digits, of which the first is not 0.
fn parse_number(text: &[u8]) -> Option<u64>
    ensures { MatchOption result (¬ (IsNumberText text.now))
        (λ n. (1 ≤ n) × (text.now ≡ decimal n)) }
{
    if !starts_above_zero(text) {
        return None;
    }
    std::str::from_utf8(text).ok()?.parse().ok()
}

// Whether the first byte is a digit other than 0.
fn starts_above_zero(text: &[u8]) -> bool
    ensures { IsTrue result ↔ ((49 ≤ slice_index text.now 0) × (slice_index text.now 0 ≤ 57)) }
{
    matches!(text, [b'1'..=b'9', ..])
}

// The decimal digits of a number, at the end of the array, and where they begin.
fn decimal_digits(number: u64) -> ([u8; MAX_DIGITS], usize)
    ensures start { result.1 < MAX_DIGITS }
    ensures digits { drop result.1 result.0 ≡ decimal number }
{
    let mut digits = [0; MAX_DIGITS];
    let mut start = MAX_DIGITS - 1;
    let mut rest = number;
    while rest >= 10 {
        digits[start] = b'0' + (rest % 10) as u8;
        start -= 1;
        rest /= 10;
    }
    digits[start] = b'0' + rest as u8;
    (digits, start)
}

/// No text has two answers: [`parse`] is determined by what it ensures.
pub fn one_answer()
    ensures { OneAnswer }
{}

/// What [`write_to`] writes, [`parse`] reads as the same identifier.
pub fn written_parses()
    ensures { WrittenParses }
{}

/// No two identifiers share a spelling.
pub fn spellings_differ()
    ensures { SpellingsDiffer }
{}

/// A packing of numbers that fit has 128 bits, as the UUID of an identifier.
pub fn packings_fit()
    ensures { PackingsFit }
{}

/// No two triples of machine, disk and resets share a packing.
pub fn packings_differ()
    ensures { PackingsDiffer }
{}

/// The sequence numbers of one epoch are 1, 2 and so on, without a gap, and none is given twice.
pub fn numbers_have_no_gap<E>()
    ensures each { NumbersHaveNoGap E }
    ensures once { NumbersDiffer E }
{}

/// An identifier leads to the mark of the one snapshot that has it, and later entries leave that.
pub fn ids_have_one_mark<E>()
    ensures { IdsHaveOneMark E }
{}

/// Later entries leave the mark and the identifier of a snapshot that was taken, and its own entry
/// leaves the epoch.
pub fn snapshots_stay<E>()
    ensures later { LaterEntriesKeep E }
    ensures epoch { SnapshotsKeepTheEpoch E }
{}

/// Whatever is told on of entries, a reading of what was told gives one of the entries.
pub fn tellings_are_read<E, F>()
    ensures { TellingsAreRead E F }
{}

/// Where of each entry of a list that which it is to the tracking was told on, and of the others
/// nothing, what was told says the same as the list: the epoch, the numbers, the identifiers and
/// which of them is accepted, and, at places of its own, the marks.
pub fn filtered_lists_read_the_same<E, F>()
    ensures { FilteredListsReadTheSame E F }
{}

/// And a query of either has the same answer, where the same changed between the same places.
pub fn filtered_lists_answer_the_same<E, F, A>()
    ensures { FilteredListsAnswerTheSame E F A }
{}

#[cfg(test)]
mod tests {
    use super::*;
    use std::test::Fail;

    // The UUID of machine 1, disk 0, before any reset.
    const FIRST: u128 = 1 << 96;

    #[test]
    fn packed_ids_have_their_text(rt: HostRuntime) {
        let vectors = [
            ((1, 0, 0), "00000001-0000-0000-0000-000000000000/1"),
            ((1, 0, 1), "00000001-0000-0000-0000-000000000001/1"),
            ((10, 3, 2), "0000000a-0000-0003-0000-000000000002/1"),
        ];
        for ((machine, disk, resets), text) in vectors {
            let id = ChangeId {
                uuid: pack(machine, disk, resets),
                seq: 1,
            };
            let mut out = [b'#'; MAX_ID_BYTES];
            let len = write_to(&id, &mut out);
            assert_eq!(rt; &out[..len], text.as_bytes(), "{text}");
            assert!(rt; out[len..].iter().all(|b| *b == b'#'), "after {text}");
            assert_eq!(rt; parse(&out[..len]), Ok(id), "{text}");
        }
    }

    #[test]
    fn only_the_one_spelling_parses(rt: HostRuntime) {
        let vectors = [
            ("", Err(IdRefused::Form)),
            ("/1", Err(IdRefused::Uuid)),
            (
                "0000000A-0000-0000-0000-000000000000/1",
                Err(IdRefused::Uuid),
            ),
            (
                "00000001-0000-0000-0000-000000000000/",
                Err(IdRefused::Number),
            ),
            (
                "00000001-0000-0000-0000-000000000000/01",
                Err(IdRefused::Number),
            ),
            (
                "00000001-0000-0000-0000-000000000000/0",
                Err(IdRefused::Number),
            ),
            (
                "00000001-0000-0000-0000-000000000000/18446744073709551616",
                Err(IdRefused::Number),
            ),
            (
                "00000001-0000-0000-0000-000000000000/18446744073709551615",
                Ok(ChangeId {
                    uuid: FIRST,
                    seq: u64::MAX,
                }),
            ),
        ];
        for (text, answer) in vectors {
            assert_eq!(rt; parse(text.as_bytes()), answer, "{text}");
        }
    }

    #[test]
    fn the_longest_spelling_fills_the_buffer(rt: HostRuntime) {
        let mut out = [0; MAX_ID_BYTES];
        let id = ChangeId {
            uuid: u128::MAX,
            seq: u64::MAX,
        };
        let text = b"ffffffff-ffff-ffff-ffff-ffffffffffff/18446744073709551615";
        assert_eq!(rt; write_to(&id, &mut out), MAX_ID_BYTES);
        assert_eq!(rt; &out, text);
    }

    #[test]
    fn refusals_say_what_is_wrong(rt: HostRuntime) -> Result<(), Fail> {
        let vectors = [
            (IdRefused::Form, 1, "a change identifier has a slash"),
            (
                IdRefused::Uuid,
                2,
                "no lower-case hyphenated UUID before the slash",
            ),
            (
                IdRefused::Number,
                3,
                "no number from 1 to 2^64 - 1 after the slash",
            ),
        ];
        for (refusal, number, text) in vectors {
            let printed = format!(in rt.alloc(); "{refusal}")?;
            assert_eq!(rt; printed.as_str(), text);
            assert_eq!(rt; refusal.number(), number);
        }
        Ok(())
    }
}
