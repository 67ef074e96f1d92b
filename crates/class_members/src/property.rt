// Properties of a class, read one after another.
ghost use Rattle.std.specs.Prelude.{◌≡◌, ◌<◌, ◌^◌, ◌||◌, ⊤, codes, length, map, OnOk, IfOk, IsTrue};
ghost use Rattle.std.specs.List.{list_any};
ghost use Rattle.std.specs.Str.{bytes_eq};
ghost use Rattle.serde_json.specs.View.{view};
ghost use Rattle.table_model.specs.Rules as Rules;
ghost use Rattle.class_members.specs.Agreement.{Gives, Reads};
ghost use Rattle.class_members.specs.Members.{are_tagged, prop_of, props_after};
ghost use Rattle.value_codec.specs.Values.{is_of};
ghost use Rattle.class_members.specs.declared.members.Prop.{Prop as PropSpec};

use crate::members::{Prop, PropList};
use crate::refusal::{Fault, TableRefusal, must};
use net_core::Text;
use serde_json::Value as Json;
use std::alloc::Global;
use table_json::{condition_of, is_name, property_object, type_of};
use table_model::{Place, TableWhy};
use value_codec::value_of;

/// The name is one of these properties'.
fn is_there(props: &[Prop], name: &str) -> bool
    ensures { result ≡ list_any (λ (p : PropSpec). bytes_eq name.now p.name) props.now }
{
    props.iter().any(|p| name == p.name.as_str())
}

/// The name is that of x, y or the role.
fn is_built_in(name: &str) -> bool
    ensures { result ≡ (bytes_eq name.now (codes "x") || bytes_eq name.now (codes "y")
        || bytes_eq name.now (codes "role")) }
{
    name == "x" || name == "y" || name == "role"
}

/// The name is one of these properties', or of x, y and role.
#[tactic(auto, using(crate::proofs::Naming::any_prop))]
fn is_taken(props: &[Prop], name: &str) -> bool
    ensures { result ≡ Rules.is_there (Rules.prop_names (map prop_of props.now)) name.now }
{
    is_built_in(name) || is_there(props, name)
}

/// The property of an object, after those before it.
fn property_after(alloc: Global, before: &PropList, element: &Json) -> Result<Prop, Fault>
    ensures gives { Gives prop_of result
        (Rules.property_after (map prop_of before.now) (view element.now)) }
    ensures tag { IfOk result (λ p. IsTrue (is_of p.kind p.init)) }
{
    let Some(object) = property_object(element) else {
        return Err(Fault::Broken(TableWhy::Shape));
    };
    must(is_name(object.name), TableWhy::Name)?;
    must(!is_taken(before.as_slice(), object.name), TableWhy::Twice)?;
    let kind = type_of(object.type_word, false)?;
    let Some(cond) = condition_of(object.cond) else {
        return Err(Fault::Broken(TableWhy::BadType));
    };
    let Some(init) = value_of(kind, object.init) else {
        return Err(Fault::Broken(TableWhy::Range));
    };
    let name = Text::from_str(alloc, object.name)?;
    Ok(Prop {
        name,
        kind,
        cond,
        init,
    })
}

/// Appends the properties of these elements, one after another. `class` is the class's number, from
/// 1, in the places of refusals; after one the list may have grown.
pub fn add_props(
    alloc: Global,
    class: u32,
    props: &mut PropList,
    elements: &[Json],
) -> Result<(), TableRefusal>
    requires few { length elements.now < 2 ^ 30 }
    requires tags { IsTrue (are_tagged props.old) }
    ensures reads { Reads (λ (u : ⊤). map prop_of props.new) result
        (props_after class (map prop_of props.old) (map view elements.now)) }
    ensures tags { OnOk result (IsTrue (are_tagged props.new)) }
{
    let mut number = 1;
    for element in elements {
        match property_after(alloc, props, element) {
            Ok(prop) => props.push(prop)?,
            Err(fault) => {
                return Err(fault.at(Place::Property {
                    class,
                    property: number,
                }));
            }
        }
        number += 1;
    }
    Ok(())
}
