//! Texts, names, moments, truth values and numbers.
ghost use Rattle.std.specs.Prelude.{◌≡◌, ◌≤◌, true, IsTrue, IfOk, length};
ghost use Rattle.basics.specs.declared.name.TheConstants.{MAX_NAME_BYTES};
ghost use Rattle.plan_model.specs.Moments.{moment_of};
ghost use Rattle.basics.specs.Spelled.{is_name};
ghost use Rattle.cmd_json.specs.Kinds.{a_number, a_number_that};
ghost use Rattle.cmd_json.specs.Range.{IsWithin};
ghost use Rattle.cmd_json.specs.Tree.{value_data};

use crate::command::SECTOR_START_UNIT;
use crate::kind::{Kind, Misfit};
use crate::{Text, numbers};
use basics::is_name;
use json::Value;
use plan_model::{Moment, Name};
use std::alloc::Global;

/// A text.
#[derive(Drop)]
pub(crate) struct TextKind;

impl Kind for TextKind {
    ghost use Rattle.cmd_json.specs.Kinds.{a_text};

    type Said = Text;

    ghost says = { λ _. a_text };

    ghost known = { λ _ _. Unit {0} };

    fn read(&self, alloc: Global, value: Value<'_>) -> Result<Text, Misfit> {
        let text = value.as_str().ok_or(Misfit::Field)?;
        Ok(Text::of(alloc, text)?)
    }
}

/// A name.
#[derive(Drop)]
pub(crate) struct NameKind;

impl Kind for NameKind {
    ghost use Rattle.basics.specs.Spelled.{IsName};
    ghost use Rattle.cmd_json.specs.Kinds.{a_name};

    type Said = Name;

    ghost says = { λ _. a_name };

    ghost known = { λ _. IsName };

    fn read(&self, alloc: Global, value: Value<'_>) -> Result<Name, Misfit> {
        let text = value.as_str().ok_or(Misfit::Field)?;
        if spells_name(text) {
            Ok(Name::of(alloc, text)?)
        } else {
            Err(Misfit::Field)
        }
    }
}

fn spells_name(text: &str) -> bool
    ensures value { result ≡ is_name text.now }
    ensures sized { IsTrue result → (1 ≤ length text.now) × (length text.now ≤ MAX_NAME_BYTES) }
{
    is_name(text.as_bytes())
}

/// The text of a moment.
#[derive(Drop)]
pub(crate) struct MomentKind;

impl Kind for MomentKind {
    ghost use Rattle.cmd_json.specs.Kinds.{a_moment};

    type Said = Moment;

    ghost says = { λ _. a_moment };

    ghost known = { λ _ _. Unit {0} };

    fn read(&self, _alloc: Global, value: Value<'_>) -> Result<Moment, Misfit> {
        let text = value.as_str().ok_or(Misfit::Field)?;
        moment_of(text).ok_or(Misfit::Number)
    }
}

fn moment_of(text: &str) -> Option<Moment>
    ensures { result ≡ moment_of text.now }
{
    Moment::parse(text).ok()
}

/// A truth value.
#[derive(Drop)]
pub(crate) struct FlagKind;

impl Kind for FlagKind {
    ghost use Rattle.cmd_json.specs.Kinds.{a_flag};

    type Said = bool;

    ghost says = { λ _. a_flag };

    ghost known = { λ _ _. Unit {0} };

    fn read(&self, _alloc: Global, value: Value<'_>) -> Result<bool, Misfit> {
        value.as_bool().ok_or(Misfit::Field)
    }
}

/// A whole number in a range.
#[derive(Drop)]
pub(crate) struct NumberKind<T> {
    pub(crate) low: T,
    pub(crate) high: T,
}

/// The numbers from one to another, both included.
pub(crate) fn within<T>(low: T, high: T) -> NumberKind<T>
    ensures { result ≡ record { low = low; high = high } }
{
    NumberKind { low, high }
}

impl Kind for NumberKind<u64> {
    ghost use Rattle.cmd_json.specs.Kinds.{a_number};
    ghost use Rattle.cmd_json.specs.Range.{IsWithin};

    type Said = u64;

    ghost says = { λ range. a_number range.low range.high };

    ghost known = { λ range. IsWithin range.low range.high };

    fn read(&self, _alloc: Global, value: Value<'_>) -> Result<u64, Misfit> {
        number_of(&value, self.low, self.high)
    }
}

impl Kind for NumberKind<u32> {
    ghost use Rattle.cmd_json.specs.Kinds.{a_number};
    ghost use Rattle.cmd_json.specs.Range.{IsWithin};

    type Said = u32;

    ghost says = { λ range. a_number range.low range.high };

    ghost known = { λ range. IsWithin range.low range.high };

    fn read(&self, _alloc: Global, value: Value<'_>) -> Result<u32, Misfit> {
        let number = number_of(&value, u64::from(self.low), u64::from(self.high))?;
        Ok(number as u32)
    }
}

impl Kind for NumberKind<u8> {
    ghost use Rattle.cmd_json.specs.Kinds.{a_number};
    ghost use Rattle.cmd_json.specs.Range.{IsWithin};

    type Said = u8;

    ghost says = { λ range. a_number range.low range.high };

    ghost known = { λ range. IsWithin range.low range.high };

    fn read(&self, _alloc: Global, value: Value<'_>) -> Result<u8, Misfit> {
        let number = number_of(&value, u64::from(self.low), u64::from(self.high))?;
        Ok(number as u8)
    }
}

/// The number of a value that is a whole number of 64 bits in a range.
pub(crate) fn number_of(value: &Value<'_>, low: u64, high: u64) -> Result<u64, Misfit>
    ensures value { result ≡ a_number low high (value_data value.now) }
    ensures within { IfOk result (IsWithin low high) }
{
    let number = whole_number_of(value)?;
    if low <= number && number <= high {
        Ok(number)
    } else {
        Err(Misfit::Number)
    }
}

// The number of a value that is a whole number of 64 bits.
fn whole_number_of(value: &Value<'_>) -> Result<u64, Misfit>
    ensures { result ≡ a_number_that (λ _. true) (value_data value.now) }
{
    let text = value.as_number().ok_or(Misfit::Field)?;
    numbers::unsigned_of(text).ok_or(Misfit::Number)
}

/// The place of a byte that begins a sector.
#[derive(Drop)]
pub(crate) struct SectorStartKind;

impl Kind for SectorStartKind {
    ghost use Rattle.std.specs.Prelude.{◌≡◌, ◌%◌};
    ghost use Rattle.cmd_json.specs.Kinds.{a_multiple_of};
    ghost use Rattle.cmd_json.specs.declared.command.TheConstants.{SECTOR_START_UNIT};

    type Said = u64;

    ghost says = { λ _. a_multiple_of SECTOR_START_UNIT };

    ghost known = { λ _ number. number % SECTOR_START_UNIT ≡ 0 };

    fn read(&self, _alloc: Global, value: Value<'_>) -> Result<u64, Misfit> {
        let number = whole_number_of(&value)?;
        if number % SECTOR_START_UNIT == 0 {
            Ok(number)
        } else {
            Err(Misfit::Number)
        }
    }
}

/// A number of 64 bits.
pub(crate) const LONG: NumberKind<u64> = NumberKind {
    low: 0,
    high: u64::MAX,
};

/// A number of 32 bits.
pub(crate) const WORD: NumberKind<u32> = NumberKind {
    low: 0,
    high: u32::MAX,
};

/// A number of 8 bits.
pub(crate) const BYTE: NumberKind<u8> = NumberKind {
    low: 0,
    high: u8::MAX,
};
