//! Which addresses are those of points, as far as a small table can tell.

ghost use Rattle.std.specs.Prelude.{◌≡◌, All, map};
ghost use Rattle.edi_unit.specs.Tree.{ProgramUnit};
ghost use Rattle.edi_code.specs.Mapped.{IsMapped};
ghost use Rattle.edi_debug.specs.stops.Near as spec;
ghost use Rattle.edi_debug.specs.stops.Near.{TellsPoints, TellsSight, TellsToo};
ghost use Rattle.edi_debug.specs.Points.{watched};

use crate::answer::Point;
use edi_code::Mapped;
use edi_sights::Sight;

/// Of the addresses with each remainder by 64: whether a point may stand there.
pub(crate) type Near = [bool; 64];

/// Whether a point may stand at this address.
pub(crate) fn is_near(near: &Near, at: u32) -> bool
    ensures exact { result ≡ spec.is_near near.now at }
{
    near[(at % 64) as usize]
}

/// The table tells of one more sight.
fn tell_sight(mapped: &Mapped, sight: Sight, near: &mut Near)
    ensures tells { (unit : ProgramUnit) → IsMapped unit mapped.now → TellsSight unit near.new sight }
    ensures keeps { TellsToo near.old near.new }
{
    if let Some(at) = mapped.address(sight.block, sight.index) {
        near[(at % 64) as usize] = true;
    }
}

/// The table tells of these sights, too.
fn tell_sights(mapped: &Mapped, sights: &[Sight], near: &mut Near)
    ensures tells { (unit : ProgramUnit) → IsMapped unit mapped.now → All (TellsSight unit near.new) sights.now }
    ensures keeps { TellsToo near.old near.new }
{
    for sight in sights {
        tell_sight(mapped, *sight, near);
    }
}

/// The table that tells of these points.
pub(crate) fn near_points(mapped: &Mapped, points: &[Point]) -> Near
    ensures tells { (unit : ProgramUnit) → IsMapped unit mapped.now → TellsPoints unit result (map watched points.now) }
{
    let mut near = [false; 64];
    for point in points {
        let sights = point.sights.items();
        tell_sights(mapped, sights, &mut near);
    }
    near
}
