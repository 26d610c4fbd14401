// The places that a request asks about.
ghost use Rattle.std.specs.Prelude.{List, IfOk, IsErrOf, codes};
ghost use Rattle.jx_wire.specs.declared.call.Place.{Place};
ghost use Rattle.jx_wire.specs.Requests.{ArePlaces};
ghost use Rattle.jx_wire.specs.Values.{Says};
ghost use Rattle.jx_wire.specs.inside.Nodes.{IsAt};

use crate::call::Place;
use crate::message::Message;
use crate::parameters::{ParameterFault, add, place_at};
use jx_index::NodeId;
use std::alloc::Global;

/// The places of a message, which are a list, in order.
pub(crate) fn positions_of(
    alloc: Global,
    message: &Message,
    list: &Option<NodeId>,
) -> Result<Vec<Place>, ParameterFault>
    requires { IsAt message.now (codes "/params/positions") list.now }
    ensures ok { IfOk result (λ places. Says message.now (λ at. ArePlaces at places.items)) }
    ensures wrong { IsErrOf result ParameterFault.Wrong → Says message.now (λ at. (places : List Place) → ArePlaces at places → ⊥) }
{
    let Some(elements) = message.elements(list) else {
        return Err(ParameterFault::Wrong);
    };
    let mut places = Vec::new(alloc);
    for element in elements {
        let Some(place) = place_at(message, &Some(element)) else {
            return Err(ParameterFault::Wrong);
        };
        add(&mut places, place)?;
    }
    Ok(places)
}
