// The classes by which payloads are read.
ghost use Rattle.std.specs.Prelude.{◌≡◌, ◌<◌, length};
ghost use Rattle.protocol_model.specs.World.{class_at as class_in};
ghost use Rattle.class_layout.specs.Tables.{class_of, table_in};
ghost use Rattle.payload_reading.specs.TableLimits.{HasTableLimits};

use class_layout::{Class, Classes};

/// The class at a place of the table. Payloads can be read by it, since a table's classes keep its
/// limits.
pub fn class_at(classes: &Classes, place: u16) -> &Class
    requires { place < length classes.now.classes }
    ensures class { class_of classes.now.segments result.now
        ≡ class_in (table_in classes.now) place }
    ensures limits { HasTableLimits result.now }
{
    classes.keeps_rules();
    classes.class(place).unwrap()
}
