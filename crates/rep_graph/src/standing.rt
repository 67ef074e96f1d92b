// How an actor stands, as far as nodes go by it, and its spots.
ghost use Rattle.std.specs.Prelude.{◌≡◌, ◌<◌, not, true, option_map, IfSome};
ghost use Rattle.graph_model.specs.Nodes.{is_near as near_spec};
ghost use Rattle.protocol_model.specs.Value.{is_always as always_spec, is_owner_only};
ghost use Rattle.protocol_model.specs.World.{Edits, class_at};
ghost use Rattle.graph_nodes.specs.Held.{spot_in, is_bounded};
ghost use Rattle.class_layout.specs.Tables.{table_in};
ghost use Rattle.world_table.specs.Answers.{look_of};
ghost use Rattle.world_table.specs.Stands.{Stands as WorldStands};
ghost use Rattle.rep_graph.specs.Standings.{standing_in, row_of, spot_by, subject_of};

use class_layout::Classes;
use graph_nodes::Spot;
use net_core::{Guid, Steps};
use protocol_model::Reach;
use std::marker::Brand;
use std::sync::ledger::{Blank, Ledger};
use world_table::{Edit, Look, World};

/// A living actor, as far as nodes go by it.
#[derive(Clone, Copy, Debug)]
pub(crate) struct Standing {
    pub x: i32,
    pub y: i32,
    pub reach: Reach,
    pub dormant: bool,
}

/// A node whose spots have no player.
#[derive(Clone, Copy, Debug)]
pub(crate) enum Row {
    Grid,
    Always,
    Dormant,
    Team,
}

/// To whom actors of a class are relevant: its owner alone, where the table hasn't the class.
pub(crate) fn reach_of(classes: &Classes, class: u16) -> Reach
    ensures reach { result ≡ (class_at (table_in classes.now) class).reach }
    ensures bounded { is_bounded result ≡ true }
{
    classes.keeps_rules();
    match classes.class(class) {
        Some(found) => found.reach,
        None => Reach::Owner,
    }
}

/// The actor, if the look says that it lives.
pub(crate) fn living(classes: &Classes, look: &Option<Look>) -> Option<Standing>
    ensures standing { result ≡ standing_in (table_in classes.now) look.now }
    ensures bounded { IfSome result (λ s. is_bounded s.reach ≡ true) }
{
    match look {
        Some(look) if look.alive => Some(Standing {
            x: look.x,
            y: look.y,
            reach: reach_of(classes, look.class),
            dormant: look.dormant,
        }),
        _ => None,
    }
}

/// How an actor stands in the world. The look isn't counted by the caller.
pub(crate) fn look_at(world: &World<'_>, actor: Guid) -> Option<Look>
    ensures { (edits : Edits) → WorldStands world.now edits
        → result ≡ look_of (table_in world.now.layout) edits actor }
{
    look_counted::<Brand>(world, actor, Blank::new(1))
}

/// The same, on a counter of its own.
fn look_counted<L: Ledger>(world: &World<'_>, actor: Guid, blank: Blank) -> Option<Look>
    requires name { blank.name ≡ L.name }
    requires parts { blank.parts ≡ L.parts }
    requires some { 0 < L.parts }
    ensures { (edits : Edits) → WorldStands world.now edits
        → result ≡ look_of (table_in world.now.layout) edits actor }
{
    let mut steps = Steps::<L>::new(blank);
    world.look(actor, &mut steps)
}

/// It is relevant by distance.
fn is_near(reach: Reach) -> bool
    ensures { result ≡ near_spec reach }
{
    matches!(reach, Reach::Near(_))
}

/// It is relevant to all.
fn is_always(reach: Reach) -> bool
    ensures { result ≡ always_spec reach }
{
    matches!(reach, Reach::Always)
}

/// It isn't its owner's alone.
pub(crate) fn is_shared(reach: Reach) -> bool
    ensures { result ≡ not (is_owner_only reach) }
{
    !matches!(reach, Reach::Owner)
}

/// The spot that a row names, if it names one.
pub(crate) fn spot_of_row(
    row: Row,
    actor: Guid,
    standing: &Option<Standing>,
    team: u8,
) -> Option<Spot>
    ensures { option_map spot_in result ≡ spot_by (row_of row) actor standing.now team }
{
    let Some(s) = standing else {
        return None;
    };
    let named = match row {
        Row::Grid => is_near(s.reach) && !s.dormant,
        Row::Always => is_always(s.reach) && !s.dormant,
        Row::Dormant => is_shared(s.reach) && s.dormant,
        Row::Team => is_shared(s.reach) && team != 0,
    };
    if !named {
        return None;
    }
    Some(Spot {
        actor,
        x: s.x,
        y: s.y,
        reach: s.reach,
        player: None,
        team,
    })
}

/// The actor whose spots or pairs an edit may change; `next` is the guid of the next actor to be
/// spawned.
pub(crate) fn subject(e: &Edit, next: Guid) -> Option<Guid>
    ensures { result ≡ subject_of next e.now }
{
    match e {
        Edit::Spawn { .. } => Some(next),
        // Handles 1 and 2 are x and y.
        Edit::Set { actor, prop, .. } => { if prop.0 <= 2 { Some(*actor) } else { None } },
        Edit::Destroy { actor }
        | Edit::Own { actor, .. }
        | Edit::Add { actor, .. }
        | Edit::Dormant { actor }
        | Edit::Wake { actor }
        | Edit::Give { actor, .. } => Some(*actor),
        Edit::View { .. } | Edit::Flush { .. } | Edit::Switch { .. } | Edit::Team { .. } => None,
    }
}
