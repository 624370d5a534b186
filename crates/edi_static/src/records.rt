//! The rules on the fields of records.

ghost use Rattle.std.specs.Prelude.{◌≡◌, ◌<◌, ◌∷◌, ◌++◌, not, [], All, Err, IfOk, OnErr, OnOk, length, map, true};
ghost use Rattle.std.specs.List.{list_any};
ghost use Rattle.std.specs.Str.{bytes_eq};
ghost use Rattle.edi_tree.specs.Tree as text;
ghost use Rattle.edi_tree.specs.View.{group_of, groups_of};
ghost use Rattle.edi_static.specs.Prelude.{JudgedAnswers, Proper, environment, list_items};
ghost use Rattle.edi_static.specs.Fitting as fitting;
ghost use Rattle.edi_static.specs.Types as spec;
ghost use Rattle.edi_static.specs.Views as view;

use crate::faults::{Judged, StaticFault, StaticKind};
use crate::known::{Known, add, fault};
use edi_tree::{Group, Name, Record};
use edi_unit::{List, Numbers};
use indexmap::IndexSet;
use std::alloc::Global;

/// The names of a record's fields, in their order. A name and its index are found without a look at the others.
pub type FieldNames = IndexSet<Vec<u8>>;

/// The names of a record's fields, and their types.
#[derive(Drop)]
pub(crate) struct Fields {
    pub(crate) names: FieldNames,
    pub(crate) types: Numbers,
}

/// A copy of a name's spelling.
fn spelling(alloc: Global, name: &[u8]) -> Result<Vec<u8>, StaticFault>
    ensures exact { IfOk result (λ copy. copy.items ≡ name.now) }
    ensures err { OnErr result (result ≡ Err StaticFault.NoMemory) }
{
    Ok(name.to_vec(alloc)?)
}

/// Puts a name behind the others, unless it is there, and says whether it is new.
fn put_name(names: &mut FieldNames, alloc: Global, name: &[u8]) -> Result<bool, StaticFault>
    ensures is_new { IfOk result (λ is_new. is_new ≡ not (list_any (bytes_eq name.now) (map (λ k. k.items) names.old.keys))) }
    ensures put { IfOk result (λ is_new. is_new ≡ true → map (λ k. k.items) names.new.keys ≡ map (λ k. k.items) names.old.keys ++ name.now ∷ []) }
    ensures err { OnErr result (result ≡ Err StaticFault.NoMemory) }
{
    let copy = spelling(alloc, name)?;
    let Ok(is_new) = names.insert(copy) else {
        return Err(StaticFault::NoMemory);
    };
    Ok(is_new)
}

/// The index of a name among these.
pub(crate) fn index_of_name(names: &FieldNames, name: &[u8]) -> Option<usize>
    ensures exact { result ≡ fitting.index_of_name (map (λ k. k.items) names.now.keys) name.now }
{
    names.get_index_of(name)
}

impl Fields {
    /// A field's name must be new in its record.
    fn add(&mut self, alloc: Global, name: &Name, of: u32) -> Judged<()>
        ensures exact { JudgedAnswers (λ _. view.fields_of self.new) result (spec.field_named of name.now (view.fields_of self.old)) }
        ensures types { OnOk result (list_items self.new.types ≡ list_items self.old.types ++ of ∷ []) }
    {
        if !put_name(&mut self.names, alloc, name.text.as_slice())? {
            return fault(StaticKind::Ambiguous, name.line);
        }
        add(&mut self.types, alloc, of)
    }

    /// In a group the type is judged first, then the names in their order.
    fn add_group(&mut self, known: &Known, alloc: Global, group: &Group) -> Judged<()>
        requires proper { Proper (environment known.now) }
        requires known { All (λ t. t < length known.now.types) (list_items self.old.types) }
        ensures exact { JudgedAnswers (λ _. view.fields_of self.new) result
            (spec.fields_of_group (environment known.now) (group_of group.now) (view.fields_of self.old)) }
        ensures known { OnOk result (All (λ t. t < length known.now.types) (list_items self.new.types)) }
    {
        let of = known.type_named(&group.type_name)?;
        self.add(alloc, &group.first, of)?;
        for name in group.more.items() {
            self.add(alloc, name, of)?;
        }
        Ok(())
    }
}

/// The fields of a record, group by group.
pub(crate) fn fields_of(known: &Known, alloc: Global, declared: &Record) -> Judged<Fields>
    requires proper { Proper (environment known.now) }
    ensures exact { JudgedAnswers view.fields_of result
        (spec.fields_of_groups (environment known.now) (text.next_group (group_of declared.now.first) (groups_of declared.now.more)) spec.no_fields) }
    ensures known { IfOk result (λ fields. All (λ t. t < length known.now.types) (list_items fields.types)) }
{
    let mut fields = Fields {
        names: IndexSet::new(alloc),
        types: List::new(alloc),
    };
    fields.add_group(known, alloc, &declared.first)?;
    for group in declared.more.items() {
        fields.add_group(known, alloc, group)?;
    }
    Ok(fields)
}
