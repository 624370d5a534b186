//! Types by number.

ghost use Rattle.std.specs.Prelude.{◌≡◌, ◌-◌, ◌^◌, ◌<◌, ◌≤◌, ◌≤ℤ◌, ◌↔◌, [], ◌∷◌, ◌++◌};
ghost use Rattle.std.specs.Prelude.{All, IfOk, IfSome, IsTrue, OnErr, OnOk, length, min, slice_index, sum_by};
ghost use Rattle.edi_unit.specs.Lists.{list_items};
ghost use Rattle.edi_unit.specs.ShapeView.{shape_of};
ghost use Rattle.edi_unit.specs.Types.{array_of, element_count, field_type, greatest_size, is_elementary, record_of, set_of};
ghost use Rattle.edi_unit.specs.TypeTables.{named_types};
ghost use Rattle.edi_unit.specs.Types.{shape_at, shape_size, size, standard_types};
ghost use Rattle.edi_unit.specs.TypeTables.{HasOrderedBounds, IsDeclarable, IsTypeTable};

use crate::lists::List;
use std::alloc::{AllocError, Global};
use std::marker::Model;

/// A list of numbers of types or blocks.
pub type Numbers = List<u32>;

/// What a type is. Types are named by their numbers.
#[derive(Drop)]
pub enum Shape {
    /// Integers from -32768 to 32767.
    Int,
    /// Characters, with the ordinals 0 to 127.
    Char,
    /// `false` (0) and `true` (1).
    Bool,
    /// An enumeration with so many constants, whose ordinals count from 0.
    Enum(u32),
    /// A record with fields of these types.
    Record(Numbers),
    /// An array with an element for each ordinal of the index type from `lo` to `hi`.
    Array {
        index: u32,
        lo: i16,
        hi: i16,
        element: u32,
    },
    /// A set of values of an elementary type.
    Set(u32),
}

/// The types by number, which contracts see as the list of what they are. Types 0, 1 and 2 are `int`, `char` and `bool`;
/// each declared type names earlier types alone and takes at most 65,535 words.
#[derive(Drop)]
pub struct TypeTable {
    shapes: Vec<Shape>,
    sizes: Vec<u32>,
}

impl Model for TypeTable {
    ghost use Rattle.std.specs.Prelude.{◌≡◌, List, map};
    ghost use Rattle.edi_unit.specs.Types.{Shape, type_sizes};
    ghost use Rattle.edi_unit.specs.TypeTables.{IsTypeTable};

    ghost Value = { List Shape };

    ghost use Rattle.edi_unit.specs.ShapeView.{shape_of};

    ghost view = { λ table. map shape_of table.shapes.items };

    ghost invariant = { λ table.
        (table.sizes.items ≡ type_sizes (map shape_of table.shapes.items))
        × IsTypeTable (map shape_of table.shapes.items) };
}

impl TypeTable {
    /// The table of the standard types.
    pub fn new(alloc: Global) -> Result<TypeTable, AllocError>
        ensures exact { IfOk result (λ table. table ≡ standard_types) }
    {
        let shapes = Vec::from_array(alloc, [Shape::Int, Shape::Char, Shape::Bool])?;
        let sizes = Vec::from_array(alloc, [1, 1, 1])?;
        Ok(TypeTable { shapes, sizes })
    }

    /// The number of types.
    pub fn len(&self) -> u32
        ensures exact { result ≡ length self.now }
        ensures table { IsTypeTable self.now }
    {
        self.shapes.len() as u32
    }

    /// Whether type `t` is `int`, `char`, `bool` or an enumeration.
    pub fn is_elementary(&self, t: u32) -> bool
        requires known { t < length self.now }
        ensures exact { result ≡ is_elementary self.now t }
    {
        matches!(
            self.shapes[t as usize],
            Shape::Int | Shape::Char | Shape::Bool | Shape::Enum(_)
        )
    }

    // Whether there is a type of this number, and it is elementary.
    fn has_elementary(&self, t: u32) -> bool
        ensures known { IsTrue result → t < length self.now }
        ensures elementary { IsTrue result → IsTrue (is_elementary self.now t) }
        ensures other { t < length self.now → IsTrue (is_elementary self.now t) → IsTrue result }
    {
        t < self.len() && self.is_elementary(t)
    }

    // The sum of the sizes of these types, where they are known, and otherwise a number that is too large.
    fn words_of_fields(&self, fields: &Numbers) -> u32
        ensures known { result ≤ greatest_size → All (λ t. t < length self.now) (list_items fields.now) }
        ensures exact { All (λ t. t < length self.now) (list_items fields.now)
            → result ≡ min (sum_by (size self.now) (list_items fields.now)) 65536 }
    {
        let mut total: u32 = 0;
        for field in fields.items() {
            if *field >= self.len() {
                return 65536;
            }
            total = (total + self.size(*field)).min(65536);
        }
        total
    }

    fn takes_record(&self, fields: &Numbers) -> bool
        ensures exact { IsTrue result ↔ IsDeclarable self.now (record_of (list_items fields.now)) }
    {
        self.words_of_fields(fields) < 65536
    }

    fn takes_array(&self, index: u32, lo: i16, hi: i16, element: u32) -> bool
        ensures exact { IsTrue result ↔ IsDeclarable self.now (array_of index lo hi element) }
    {
        if lo > hi {
            return false;
        }
        if element >= self.len() {
            return false;
        }
        if !self.has_elementary(index) {
            return false;
        }
        element_total(lo, hi) * self.size(element) < 65536
    }

    fn takes_set(&self, base: u32) -> bool
        ensures exact { IsTrue result ↔ IsDeclarable self.now (set_of base) }
    {
        self.has_elementary(base)
    }

    /// Whether a type may be declared: it names known types, elementary ones for an array's index and a set's base, its
    /// bounds are in order, and it takes at most 65,535 words.
    pub fn is_declarable(&self, shape: &Shape) -> bool
        ensures exact { IsTrue result ↔ IsDeclarable self.now (shape_of shape.now) }
    {
        match shape {
            Shape::Int | Shape::Char | Shape::Bool | Shape::Enum(_) => true,
            Shape::Record(fields) => self.takes_record(fields),
            Shape::Array {
                index,
                lo,
                hi,
                element,
            } => self.takes_array(*index, *lo, *hi, *element),
            Shape::Set(base) => self.takes_set(*base),
        }
    }

    /// Declares a type and gives its number, the next one. Where memory is wanting the table stays as it was.
    pub fn declare(&mut self, alloc: Global, shape: Shape) -> Result<u32, AllocError>
        requires declarable { IsDeclarable self.old (shape_of shape) }
        requires room { length self.old < 2 ^ 32 - 1 }
        ensures number { IfOk result (λ t. t ≡ length self.old) }
        ensures declared { OnOk result (self.new ≡ self.old ++ shape_of shape ∷ []) }
        ensures err { OnErr result (self.new ≡ self.old) }
        ensures table { IsTypeTable self.new }
    {
        let _ = alloc;
        let number = self.shapes.len() as u32;
        let size = size_of_shape(self.sizes.as_slice(), &shape);
        self.shapes.reserve(1)?;
        self.sizes.push(size)?;
        self.shapes.push_reserved(shape);
        Ok(number)
    }

    /// The words of a value of type `t`, at most 65,535.
    pub fn size(&self, t: u32) -> u32
        requires known { t < length self.now }
        ensures exact { result ≡ size self.now t }
        ensures small { result ≤ greatest_size }
    {
        self.sizes[t as usize]
    }

    /// The type of field `i` of type `t`, counted from 0, or `None` where `t` is no record with such a field.
    pub fn field(&self, t: u32, i: usize) -> Option<u32>
        requires known { t < length self.now }
        ensures exact { result ≡ field_type self.now t i }
        ensures known { IfSome result (λ f. f < length self.now) }
    {
        match &self.shapes[t as usize] {
            Shape::Record(fields) => fields.get(i).copied(),
            _ => None,
        }
    }

    /// Whether two numbers are those of one declaration. Types that only look alike are not the same.
    pub fn same(&self, a: u32, b: u32) -> bool
        requires first { a < length self.now }
        requires second { b < length self.now }
        ensures exact { IsTrue result ↔ (a ≡ b) }
    {
        a == b
    }

    /// What type `t` is.
    pub fn shape(&self, t: u32) -> &Shape
        requires known { t < length self.now }
        ensures exact { shape_of result.now ≡ shape_at self.now t }
    {
        &self.shapes[t as usize]
    }
}

// The sum of the sizes of these types.
fn record_size(sizes: &[u32], fields: &Numbers) -> u32
    requires known { All (λ t. t < length sizes.now) (list_items fields.now) }
    requires small { sum_by (λ t. slice_index sizes.now t) (list_items fields.now) ≤ 65535 }
    ensures exact { result ≡ sum_by (λ t. slice_index sizes.now t) (list_items fields.now) }
{
    let mut total = 0;
    for field in fields.items() {
        total += sizes[*field as usize];
    }
    total
}

// The number of ordinals from `lo` to `hi`.
fn element_total(lo: i16, hi: i16) -> u32
    requires ordered { lo ≤ℤ hi }
    ensures exact { result ≡ element_count lo hi }
    ensures small { result ≤ 65536 }
{
    u32::from(lo.abs_diff(hi)) + 1
}

// The words of a value of such a type, from the sizes of the types that it names.
fn size_of_shape(sizes: &[u32], shape: &Shape) -> u32
    requires known { All (λ t. t < length sizes.now) (named_types (shape_of shape.now)) }
    requires ordered { HasOrderedBounds (shape_of shape.now) }
    requires small { shape_size (λ t. slice_index sizes.now t) (shape_of shape.now) ≤ 65535 }
    ensures exact { result ≡ shape_size (λ t. slice_index sizes.now t) (shape_of shape.now) }
{
    match shape {
        Shape::Int | Shape::Char | Shape::Bool | Shape::Enum(_) => 1,
        Shape::Record(fields) => record_size(sizes, fields),
        Shape::Array {
            lo,
            hi,
            element,
            ..
        } => element_total(*lo, *hi) * sizes[*element as usize],
        Shape::Set(_) => 8,
    }
}
