//! Laws of the definitions. Each function does nothing, and its contract is the law.

ghost use Rattle.std.specs.Prelude.{◌≡◌, ℕ, ◌<◌, List, length};
ghost use Rattle.edi_unit.specs.Types.{Shape, shape_at, shape_size, size};
ghost use Rattle.edi_unit.specs.TypeTables.{IsTypeTable};
ghost use Rattle.edi_unit.specs.Tree.{ProgramUnit};
ghost use Rattle.edi_unit.specs.Values.{IsOf, shape_zero, zero_value};
ghost use Rattle.edi_unit.specs.Fits.{Fits, ShapesFit};
ghost use Rattle.edi_unit.specs.Laws.{OfEachType};

/// The size of each type of a table follows from the sizes of the types that it names.
pub fn sizes_follow_shapes()
    ensures exact { OfEachType (λ types t. size types t ≡ shape_size (size types) (shape_at types t)) }
{}

/// The value with which a variable of a type starts follows from those of the types that the type names, and is one of the
/// type's values.
pub fn variables_start_in_their_type()
    ensures exact { OfEachType (λ types t. zero_value types t ≡ shape_zero (zero_value types) (shape_at types t)) }
    ensures within { (types : List Shape)
        → (t : ℕ)
        → IsTypeTable types
        → ShapesFit types
        → t < length types
        → IsOf types (zero_value types t) t }
{}

/// There is a unit that fits: a program that shows one character.
pub fn a_unit_fits()
    ensures exact { (unit : ProgramUnit) × Fits unit }
{}
