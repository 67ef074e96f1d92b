// When a property goes to a connection: with an actor's open, and with its updates.
//
//                      with the open            with an update
//                      owner    others          owner    others
//     Always           yes      yes             yes      yes
//     InitialOnly      yes      yes             no       no
//     OwnerOnly        yes      no              yes      no
//     SkipOwner        no       yes             no       yes
//     InitialOrOwner   yes      yes             yes      no
//     Custom           as the actor's switch for the property stands
//
// It stands on `protocol_model` for the table of conditions, after Unreal's `ELifetimeCondition`,
// and hands its `Cond` on. It promises exactly that table. It knows no property's value, and nothing
// of when an open or an update is sent.
//
// A caller picks what an open holds:
//
//     for (handle, prop) in class.props().enumerate() {
//         if visible(prop.cond, owns, actor.is_on(handle)) {
//             open.push(handle, actor.value(handle))?;
//         }
//     }
#![tactic(auto)]

ghost use Rattle.std.specs.Prelude.{◌≡◌, true, false};
ghost use Rattle.protocol_model.specs.Cond.{visible as is_visible, updatable as is_updatable};

pub use protocol_model::Cond;

/// An open to this connection holds the property.
///
/// `owns` says whether the connection's player owns the actor, `on` how the actor's switch for the
/// property stands; a custom property alone has one.
pub fn visible(cond: Cond, owns: bool, on: bool) -> bool
    ensures { result ≡ is_visible cond owns on }
{
    match cond {
        Cond::Always | Cond::InitialOnly | Cond::InitialOrOwner => true,
        Cond::OwnerOnly => owns,
        Cond::SkipOwner => !owns,
        Cond::Custom => on,
    }
}

/// An update to this connection may hold the property; the parameters are those of `visible`.
pub fn updatable(cond: Cond, owns: bool, on: bool) -> bool
    ensures { result ≡ is_updatable cond owns on }
{
    match cond {
        Cond::Always => true,
        Cond::InitialOnly => false,
        Cond::OwnerOnly | Cond::InitialOrOwner => owns,
        Cond::SkipOwner => !owns,
        Cond::Custom => on,
    }
}

#[cfg(test)]
mod tests {
    use super::*;

    #[test]
    fn the_table_is_the_one_of_the_documents(rt: HostRuntime) {
        for (cond, to_owner, to_others, owner_later, others_later) in [
            (Cond::Always, true, true, true, true),
            (Cond::InitialOnly, true, true, false, false),
            (Cond::OwnerOnly, true, false, true, false),
            (Cond::SkipOwner, false, true, false, true),
            (Cond::InitialOrOwner, true, true, true, false),
        ] {
            for on in [false, true] {
                assert_eq!(rt; visible(cond, true, on), to_owner);
                assert_eq!(rt; visible(cond, false, on), to_others);
                assert_eq!(rt; updatable(cond, true, on), owner_later);
                assert_eq!(rt; updatable(cond, false, on), others_later);
            }
        }
        for owns in [false, true] {
            assert!(rt; visible(Cond::Custom, owns, true) && updatable(Cond::Custom, owns, true));
            assert!(rt;
                !visible(Cond::Custom, owns, false) && !updatable(Cond::Custom, owns, false)
            );
        }
    }
}
