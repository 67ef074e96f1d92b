// The members of one object, by their keys.
ghost use Rattle.std.specs.Prelude.{◌≡◌, map, option_map, option_and_then, IfSome};
ghost use Rattle.std.specs.Bool.{OnTrue};
ghost use Rattle.std.specs.List.{list_all, AllPass};
ghost use Rattle.serde_json.specs.Find.{get_member};
ghost use Rattle.serde_json.specs.View.{view, members_view};
ghost use Rattle.table_model.specs.Objects.{members_of, text_at, text_or_null_at, whole_at, flag_at, list_at, texts_of};
ghost use Rattle.table_json.specs.Objects.{is_text, text_in};

use serde_json::{Map, Value as Json};

/// The members of an object of so many keys.
#[tactic(auto, using(crate::proofs::Lent::members_lent, std::proofs::lemmas::Bool::Decides::nat_tests))]
pub(crate) fn members_of(v: &Json, keys: usize) -> Option<&Map<String, Json>>
    ensures { option_map (λ m. members_view m.now.entries) result ≡ members_of keys (view v.now) }
{
    let members = v.as_object()?;
    if members.len() == keys {
        Some(members)
    } else {
        None
    }
}

fn member<'a>(members: &'a Map<String, Json>, key: &str) -> Option<&'a Json>
    ensures { option_map (λ v. view v.now) result
        ≡ get_member key.now (members_view members.now.entries) }
{
    members.get(key)
}

/// The text of a key.
pub(crate) fn text_at<'a>(members: &'a Map<String, Json>, key: &str) -> Option<&'a str>
    ensures { option_map (λ text. text.now) result
        ≡ text_at key.now (members_view members.now.entries) }
{
    member(members, key)?.as_str()
}

/// The text of a key, which may be null.
pub(crate) fn text_or_null_at<'a>(
    members: &'a Map<String, Json>,
    key: &str,
) -> Option<Option<&'a str>>
    ensures { option_map (λ text. option_map (λ t. t.now) text) result
        ≡ text_or_null_at key.now (members_view members.now.entries) }
{
    match member(members, key)? {
        Json::Null => Some(None),
        Json::String(text) => Some(Some(text.as_str())),
        _ => None,
    }
}

/// The whole number of a key.
pub(crate) fn whole_at(members: &Map<String, Json>, key: &str) -> Option<i128>
    ensures { result ≡ whole_at key.now (members_view members.now.entries) }
{
    member(members, key)?.as_number()?.as_i128()
}

/// The true or false of a key.
pub(crate) fn flag_at(members: &Map<String, Json>, key: &str) -> Option<bool>
    ensures { result ≡ flag_at key.now (members_view members.now.entries) }
{
    member(members, key)?.as_bool()
}

/// The elements of a key's array.
#[tactic(auto, using(crate::proofs::Lent::elements_lent))]
pub(crate) fn list_at<'a>(members: &'a Map<String, Json>, key: &str) -> Option<&'a [Json]>
    ensures { option_map (λ list. map view list.now) result
        ≡ list_at key.now (members_view members.now.entries) }
{
    Some(member(members, key)?.as_array()?.as_slice())
}

fn are_texts(values: &[Json]) -> bool
    ensures exact { result ≡ list_all is_text values.now }
    ensures each { OnTrue result (AllPass is_text values.now) }
{
    values.iter().all(|v| v.is_string())
}

/// The elements of a key's array, where each is a text.
#[tactic(auto, using(crate::proofs::Lent::texts_lent))]
pub(crate) fn texts_at<'a>(members: &'a Map<String, Json>, key: &str) -> Option<&'a [Json]>
    ensures exact { option_map (λ list. map text_in list.now) result
        ≡ option_and_then texts_of (list_at key.now (members_view members.now.entries)) }
    ensures texts { IfSome result (λ list. AllPass is_text list.now) }
{
    let list = list_at(members, key)?;
    if are_texts(list) { Some(list) } else { None }
}
