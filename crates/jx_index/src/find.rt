// The look-up of pointers (RFC 6901, section 4).
ghost use Rattle.std.specs.Prelude.{◌≡◌, ◌<◌, ◌≤◌, ℕ, length, take, drop, filter, slice_get, IfOk};
ghost use Rattle.jx_run.specs.Text.{IsText};
ghost use Rattle.jx_run.specs.Tree.{Tree};
ghost use Rattle.jx_index.specs.declared.units.Spelling.TheVariants.{InToken};
ghost use Rattle.jx_index.specs.ArrayTokens.{place_in};
ghost use Rattle.jx_index.specs.Leads.{only, at_place, leads};
ghost use Rattle.jx_index.specs.Nodes.{IsArrayAt, IsObjectAt, kind_at, child_numbers};
ghost use Rattle.jx_index.specs.Pointers.{HasSlash, tokens, HasNoSlash};
ghost use Rattle.jx_index.specs.RowsLead.{is_equal, row_token};
ghost use Rattle.jx_index.specs.Units.{chars_units};

use crate::array_token::{Place, place_of_token};
use crate::find_fault::FindFault;
use crate::indexed::Indexed;
use crate::look_up::find_member;
use crate::names::keep;
use crate::pointer::Pointer;
use crate::row::NodeId;
use crate::units::{Spelling, Units, skip};
use jx_lex::Kind;

/// How many bytes are before the next slash, or before the end.
pub(crate) fn token_len(bytes: &[u8]) -> usize
    ensures within { result ≤ length bytes.now }
    ensures slashless { HasNoSlash (take result bytes.now) }
    ensures next { HasSlash (drop result bytes.now) }
{
    for at in 0..bytes.len() {
        if bytes[at] == b'/' {
            return at;
        }
    }
    bytes.len()
}

/// The node at this index of a list; none past its end.
fn node_at(nodes: &[NodeId], at: usize) -> Option<NodeId>
    ensures { result ≡ slice_get nodes.now at }
{
    match nodes.get(at) {
        Some(node) => Some(*node),
        None => None,
    }
}

impl<'a> Indexed<'a> {
    /// The only member of an object with the name that a token encodes; refused where no member has it, or several.
    fn member(&self, object: NodeId, name: &[u8], token: usize) -> Result<NodeId, FindFault>
        requires { IsObjectAt self.now.rows object }
        ensures { result ≡ only (filter (is_equal self.now.text self.now.rows (chars_units InToken 0 name.now)) (child_numbers self.now.rows object)) token }
    {
        let order = self.name_order(object);
        find_member(self.text(), self.rows(), order, name, token)
    }

    /// The element of an array that a token names; refused where it names none.
    fn element(&self, array: NodeId, name: &[u8], token: usize) -> Result<NodeId, FindFault>
        requires { IsArrayAt self.now.rows array }
        ensures { result ≡ at_place (place_in (chars_units InToken 0 name.now) (length (child_numbers self.now.rows array))) (child_numbers self.now.rows array) token }
    {
        let elements = self.elements(array);
        match place_of_token(Units::new(name, Spelling::InToken), elements.len()) {
            Place::Element(at) => node_at(elements, at).ok_or(FindFault::PastEnd { token }),
            Place::PastEnd => Err(FindFault::PastEnd { token }),
            Place::AfterLast => Err(FindFault::AfterLast { token }),
            Place::NotAnIndex => Err(FindFault::NotAnIndex { token }),
        }
    }

    /// The child of a node of this kind to which a token leads, or why it leads nowhere.
    fn step(&self, kind: Kind, node: NodeId, name: &[u8], token: usize) -> Result<NodeId, FindFault>
        requires { kind ≡ kind_at self.now.rows node }
        ensures { result ≡ row_token self.now.text self.now.rows (chars_units InToken 0 name.now) node token }
    {
        match kind {
            Kind::Object => self.member(node, name, token),
            Kind::Array => self.element(node, name, token),
            _ => Err(FindFault::NotAContainer { token }),
        }
    }

    /// The node that a pointer leads to, or the first token that leads nowhere. It takes no memory, and in an object it
    /// looks at no more names than a halving needs, in an array at one element.
    pub fn find(&self, pointer: &Pointer) -> Result<NodeId, FindFault>
        ensures row { IfOk result (λ node. node < length self.now.rows) }
        ensures leads { (limit : ℕ) (tree : Tree)
            → IsText self.now.text self.now.span.start self.now.span.end limit tree → result ≡ leads self.now.text tree (tokens pointer.now) }
    {
        let rows = self.rows();
        let mut node = self.root();
        let mut rest = pointer.bytes();
        let mut token = 0;
        while !rest.is_empty() {
            let bytes = skip(rest, 1);
            let len = token_len(bytes);
            let name = keep(bytes, len);
            node = self.step(rows[node.number()].kind, node, name, token)?;
            rest = skip(bytes, len);
            token += 1;
        }
        Ok(node)
    }
}
