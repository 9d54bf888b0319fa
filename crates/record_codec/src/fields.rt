//! The fields of a body, read one after the other. What is left of the body is what callers see.
ghost use Rattle.std.specs.Prelude.{◌≡◌, ◌≤◌, ◌+◌, length, drop, take};
ghost use Rattle.record_codec.specs.Parse.{word_at, long_at, uuid_at, byte_at, flag_at, id_at};

use change_id::ChangeId;
use std::marker::Model;

/// What is left of a body.
#[derive(Drop)]
pub(crate) struct Fields<'a> {
    rest: &'a [u8],
}

impl<'a> Model for Fields<'a> {
    ghost use Rattle.std.specs.Prelude.{List, ℕ};

    ghost Value = { List ℕ };

    ghost view = { λ fields. fields.rest.now };
}

impl<'a> Fields<'a> {
    /// All of these bytes.
    pub(crate) fn of(bytes: &'a [u8]) -> Fields<'a>
        ensures { result ≡ bytes.now }
    {
        Fields { rest: bytes }
    }

    pub(crate) fn byte(&mut self) -> u8
        requires { 1 ≤ length self.old }
        ensures value { result ≡ byte_at self.old }
        ensures rest { self.new ≡ drop 1 self.old }
        ensures len { length self.new + 1 ≡ length self.old }
    {
        let byte = self.rest[0];
        self.rest = &self.rest[1..];
        byte
    }

    /// A flag. None where the byte is neither 0 nor 1.
    pub(crate) fn flag(&mut self) -> Option<bool>
        requires { 1 ≤ length self.old }
        ensures value { result ≡ flag_at self.old }
        ensures rest { self.new ≡ drop 1 self.old }
        ensures len { length self.new + 1 ≡ length self.old }
    {
        match self.byte() {
            0 => Some(false),
            1 => Some(true),
            _ => None,
        }
    }

    #[tactic(auto, unfolding(crate::specs::Parse::word_at))]
    pub(crate) fn word(&mut self) -> u32
        requires { 4 ≤ length self.old }
        ensures value { result ≡ word_at self.old }
        ensures rest { self.new ≡ drop 4 self.old }
        ensures len { length self.new + 4 ≡ length self.old }
    {
        let b = self.rest;
        self.rest = &b[4..];
        u32::from_be_bytes([b[0], b[1], b[2], b[3]])
    }

    #[tactic(auto, unfolding(crate::specs::Parse::long_at))]
    pub(crate) fn long(&mut self) -> u64
        requires { 8 ≤ length self.old }
        ensures value { result ≡ long_at self.old }
        ensures rest { self.new ≡ drop 8 self.old }
        ensures len { length self.new + 8 ≡ length self.old }
    {
        let b = self.rest;
        self.rest = &b[8..];
        u64::from_be_bytes([b[0], b[1], b[2], b[3], b[4], b[5], b[6], b[7]])
    }

    #[tactic(auto, unfolding(crate::specs::Parse::uuid_at))]
    pub(crate) fn uuid(&mut self) -> u128
        requires { 16 ≤ length self.old }
        ensures value { result ≡ uuid_at self.old }
        ensures rest { self.new ≡ drop 16 self.old }
        ensures len { length self.new + 16 ≡ length self.old }
    {
        let b = self.rest;
        self.rest = &b[16..];
        u128::from_be_bytes([
            b[0], b[1], b[2], b[3], b[4], b[5], b[6], b[7], b[8], b[9], b[10], b[11], b[12], b[13],
            b[14], b[15],
        ])
    }

    pub(crate) fn id(&mut self) -> ChangeId
        requires { 24 ≤ length self.old }
        ensures value { result ≡ id_at self.old }
        ensures rest { self.new ≡ drop 8 (drop 16 self.old) }
        ensures len { length self.new + 24 ≡ length self.old }
    {
        let uuid = self.uuid();
        let seq = self.long();
        ChangeId { uuid, seq }
    }

    /// How many bytes are left.
    pub(crate) fn len(&self) -> usize
        ensures { result ≡ length self.now }
    {
        self.rest.len()
    }

    /// The next bytes, so many.
    pub(crate) fn bytes(&mut self, len: usize) -> &'a [u8]
        requires { len ≤ length self.old }
        ensures value { result.now ≡ take len self.old }
        ensures rest { self.new ≡ drop len self.old }
        ensures len { length self.new + len ≡ length self.old }
    {
        let (front, rest) = self.rest.split_at(len);
        self.rest = rest;
        front
    }

    /// All that is left.
    pub(crate) fn rest(self) -> &'a [u8]
        ensures { result.now ≡ self.entry }
    {
        let Fields { rest } = self;
        rest
    }
}
