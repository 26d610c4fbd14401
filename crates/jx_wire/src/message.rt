ghost use Rattle.std.specs.Prelude.{◌≡◌, ◌≢◌, ◌<◌, ◌∷◌, ◌++◌, ◌^◌, [], ℕ, List, None, Some, IfOk, IfErr, IfSome, IsErrOf, decimal, is_some, length, slice_get, true, false};
ghost use Rattle.jx_index.specs.ByNames.{IsVerdictBy};
ghost use Rattle.jx_index.specs.Pointers.{IsPointer};
ghost use Rattle.jx_lex.specs.declared.kind.Kind.TheVariants as kinds;
ghost use Rattle.jx_lex.specs.declared.kind.Kind.TheVariants.{String};
ghost use Rattle.jx_run.specs.declared.texts.verdict.Verdict.TheVariants.{Accepted, Refused};
ghost use Rattle.jx_string.specs.declared.string_fault.StringFault.TheVariants.{LoneSurrogate, NoString};
ghost use Rattle.jx_wire.specs.Messages.{wire_settings};
ghost use Rattle.jx_wire.specs.Values.{number_by, seen, text_by, Says};
ghost use Rattle.jx_wire.specs.Requests.{IsOfKind};
ghost use Rattle.jx_wire.specs.inside.Nodes.{is_word, IsAt};
ghost use Rattle.jx_wire.specs.inside.Spelt.{IsSpelt};

use crate::members::{bytes_at, kind_of, member_of, row_of};
use crate::number::number_of;
use jx_index::{
    Children, Indexed, NodeId, Pointer, TextAnswer, look_ups_with_unique_names, rows_of_look_ups,
    strings_pointers_and_rows,
};
use jx_lex::{Depth, Kind};
use jx_run::{FrontMark, NameRule, Refusal, Settings};
use jx_string::{StringFault, unescaped};
use std::alloc::{AllocError, Global};
use std::marker::Model;

/// How many containers of a message may stand open at once.
const DEPTH: u32 = 64;

/// A message: a JSON text, no object of which repeats a name.
#[derive(Debug, Drop)]
pub struct Message<'a> {
    index: Indexed<'a>,
}

impl<'a> Model for Message<'a> {
    ghost use Rattle.std.specs.Prelude.{◌≡◌, ℕ, List, length};
    ghost use Rattle.jx_index.specs.ByNames.{IsVerdictBy};
    ghost use Rattle.jx_run.specs.Tree.{span};
    ghost use Rattle.jx_run.specs.declared.texts.verdict.Verdict.TheVariants.{Accepted};
    ghost use Rattle.jx_wire.specs.Messages.{wire_settings};

    ghost Value = { List ℕ };

    ghost view = { λ m. m.index.text };

    ghost invariant = { λ m. (m.index.span ≡ span 0 (length m.index.text)) × IsVerdictBy wire_settings m.index.text Accepted };
}

/// How messages are read.
fn wire_settings() -> Settings
    ensures { result ≡ wire_settings }
{
    Settings {
        depth: Depth::new(DEPTH).unwrap(),
        mark: FrontMark::Refused,
        names: NameRule::Unique,
    }
}

impl<'a> Message<'a> {
    /// Reads the body of a frame as a JSON text (RFC 8259) within a depth of 64, whose objects repeat no name. `Err` when out of
    /// memory.
    pub fn read(alloc: Global, body: &'a [u8]) -> Result<Result<Message<'a>, Refusal>, AllocError>
        ensures same { IfOk result (λ read. IfOk read (λ message. message ≡ body.now)) }
        ensures read { IfOk result (λ read. IfOk read (λ _. IsVerdictBy wire_settings body.now Accepted)) }
        ensures refused { IfOk result (λ read. IfErr read (λ refusal. IsVerdictBy wire_settings body.now (Refused refusal))) }
    {
        match TextAnswer::read(alloc, body, &wire_settings())? {
            TextAnswer::Accepted(index) => Ok(Ok(Message { index })),
            TextAnswer::Refused(refusal) => Ok(Err(refusal)),
        }
    }

    /// The value that a JSON Pointer leads to (RFC 6901), if it leads to one.
    pub fn at(&self, pointer: &str) -> Option<Value<'a>>
        ensures at { IsPointer pointer.now → Says self.now (λ at. at pointer.now ≡ seen result) }
        ensures spelt { IfSome result IsSpelt }
    {
        let Ok(pointer) = Pointer::read(pointer) else {
            return None;
        };
        let node = self.index.find(&pointer).ok();
        self.value(&node)
    }

    /// Where the value of the whole message stands.
    pub(crate) fn root(&self) -> Option<NodeId>
        ensures { IsAt self.now [] result }
    {
        Some(self.index.root())
    }

    /// The value at a node, if there is one.
    pub(crate) fn value(&self, node: &Option<NodeId>) -> Option<Value<'a>>
        ensures at { (pointer : List ℕ) → IsAt self.now pointer node.now → Says self.now (λ at. at pointer ≡ seen result) }
        ensures spelt { IfSome result IsSpelt }
    {
        rows_of_look_ups();
        let row = row_of(self.index.rows(), node)?;
        Some(Value {
            kind: row.kind,
            bytes: bytes_at(self.index.text(), row.span),
        })
    }

    /// The member of an object with a name; none where there is no object, or none of its members has it.
    pub(crate) fn member(&self, node: &Option<NodeId>, name: &str) -> Option<NodeId>
        ensures { is_word name.now ≡ true → (pointer : List ℕ) → IsAt self.now pointer node.now → IsAt self.now (pointer ++ 0x2f ∷ name.now) result }
    {
        look_ups_with_unique_names();
        let _rows = self.index.rows();
        let node = (*node)?;
        member_of(&self.index, node, name)
    }

    /// The value of such a member.
    pub(crate) fn value_in(&self, node: &Option<NodeId>, name: &str) -> Option<Value<'a>>
        ensures at { is_word name.now ≡ true → (pointer : List ℕ) → IsAt self.now pointer node.now → Says self.now (λ at. at (pointer ++ 0x2f ∷ name.now) ≡ seen result) }
        ensures spelt { IfSome result IsSpelt }
    {
        let member = self.member(node, name);
        self.value(&member)
    }

    /// The value of a member of the outermost object.
    pub(crate) fn top_value(&self, name: &str) -> Option<Value<'a>>
        ensures at { is_word name.now ≡ true → Says self.now (λ at. at (0x2f ∷ name.now) ≡ seen result) }
        ensures spelt { IfSome result IsSpelt }
    {
        self.value_in(&self.root(), name)
    }

    /// The elements of an array, in order; none where there is no array.
    pub(crate) fn elements(&self, node: &Option<NodeId>) -> Option<Children<'_>>
        ensures list { (pointer : List ℕ) → IsAt self.now pointer node.now → is_some result ≡ true → Says self.now (λ at. IsOfKind kinds.Array (at pointer)) }
        ensures no_list { (pointer : List ℕ) → IsAt self.now pointer node.now → is_some result ≡ false → Says self.now (λ at. IsOfKind kinds.Array (at pointer) → ⊥) }
        ensures each { IfSome result (λ elements. (pointer : List ℕ) → IsAt self.now pointer node.now → (number : ℕ) → number < 2 ^ 64
            → IsAt self.now (pointer ++ 0x2f ∷ decimal number) (slice_get elements number)) }
        ensures few { IfSome result (λ elements. length elements < 2 ^ 64) }
    {
        rows_of_look_ups();
        let node = (*node)?;
        match kind_of(self.index.rows(), node) {
            Kind::Array => Some(self.index.children(node)),
            _ => None,
        }
    }
}

/// A value of a message.
#[derive(Clone, Copy, Debug)]
pub struct Value<'a> {
    /// Its kind.
    pub kind: Kind,
    /// Its bytes in the body.
    pub bytes: &'a [u8],
}

impl<'a> Value<'a> {
    /// The UTF-8 of the characters that a string stands for.
    pub fn text(&self, alloc: Global) -> Result<Vec<u8>, StringFault>
        ensures text { IsSpelt self.now → IfOk result (λ text. text_by self.now.kind self.now.bytes.now ≡ Some text.items) }
        ensures none { IsSpelt self.now → IfErr result (λ fault. fault ≢ StringFault.Memory → text_by self.now.kind self.now.bytes.now ≡ None) }
        ensures lone { IsSpelt self.now → IsErrOf result LoneSurrogate → self.now.kind ≡ String }
        ensures no { IsSpelt self.now → IsErrOf result NoString → self.now.kind ≢ String }
    {
        strings_pointers_and_rows();
        match self.kind {
            Kind::String => unescaped(alloc, self.bytes),
            _ => Err(StringFault::NoString),
        }
    }

    /// Whether it is a string that stands for a text.
    pub(crate) fn stands_for(&self, alloc: Global, text: &[u8]) -> Result<bool, AllocError>
        ensures yes { IsSpelt self.now → IfOk result (λ is. is ≡ true → text_by self.now.kind self.now.bytes.now ≡ Some text.now) }
        ensures no { IsSpelt self.now → IfOk result (λ is. is ≡ false → text_by self.now.kind self.now.bytes.now ≢ Some text.now) }
    {
        match self.text(alloc) {
            Ok(found) => Ok(found.as_slice() == text),
            Err(StringFault::NoString | StringFault::LoneSurrogate) => Ok(false),
            Err(StringFault::Memory) => Err(AllocError),
        }
    }

    /// The number of its decimal digits, or 2 to the 32 where it is greater; none of another value, or of a number with a
    /// sign, a fraction or an exponent.
    pub fn number(&self) -> Option<usize>
        ensures { result ≡ number_by self.now.kind self.now.bytes.now }
    {
        match self.kind {
            Kind::Number => number_of(self.bytes),
            _ => None,
        }
    }
}
