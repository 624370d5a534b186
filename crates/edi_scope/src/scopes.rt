//! The open scopes at a place of the text.

ghost use Rattle.std.specs.Prelude.{◌≡◌, ◌<◌, ◌||◌, ◌&&◌, ◌∷◌, ◌++◌, [], ◌↔◌, length, take, drop, vec_len, option_map, slice_set, slice_index_or, false};
ghost use Rattle.std.specs.Prelude.{None, OnOk, OnErr, IfOk, IfSome, IsTrue, is_some, if◌then◌else◌};
ghost use Rattle.edi_scope.specs.Scope.{standard, visible, outside, in_module, entered, declared, with_name, exported as exported_name, with_one, with_name_at};
ghost use Rattle.edi_scope.specs.Standing.{kept, name_of, without_one, without_newest, newest, innermost_names};

use crate::declarations::{Declaration, Declarations};
use crate::entity::{Entity, ScopeFault};
use std::alloc::{AllocError, Global};
use std::marker::Model;

/// The type number of `int`.
const INT: u32 = 0;
/// The type number of `char`.
const CHAR: u32 = 1;
/// The type number of `bool`.
const BOOL: u32 = 2;

/// A name that a scope declares.
#[derive(Drop)]
struct Named {
    name: Vec<u8>,
    entity: Entity,
}

/// An open scope: whether it is that of a module, and its names in the order of their declaration.
#[derive(Drop)]
struct OpenScope {
    is_module: bool,
    names: Vec<Named>,
}

/// The open scopes at a place of the text. The outermost has the standard names.
///
/// Contracts see the list of the scopes, the innermost first. A name is looked up in logarithmic
/// time, however many are declared.
#[derive(Drop)]
pub struct Scopes {
    declarations: Declarations,
    /// The outermost first.
    scopes: Vec<OpenScope>,
}

impl Model for Scopes {
    ghost use Rattle.std.specs.Prelude.{List};
    ghost use Rattle.edi_scope.specs.Scope.{Scope};

    ghost Value = { List Scope };

    ghost use Rattle.edi_scope.specs.Standing.{scopes_of, ScopesAreKept};

    ghost view = { λ s. scopes_of s.scopes };

    ghost invariant = { λ s. ScopesAreKept s.declarations (scopes_of s.scopes) };
}

impl Scopes {
    /// One scope with the standard names: the types `int`, `char` and `bool`, which have the numbers
    /// 0, 1 and 2, the constants `false` and `true`, and the procedure `halt`.
    pub fn new(alloc: Global) -> Result<Scopes, AllocError>
        ensures exact { IfOk result (λ scopes. scopes ≡ standard ∷ []) }
    {
        let mut scopes = Scopes::without_names(alloc)?;
        scopes.add_at(alloc, 0, b"halt", Entity::Halt)?;
        scopes.add_at(alloc, 0, b"true", truth(1))?;
        scopes.add_at(alloc, 0, b"false", truth(0))?;
        scopes.add_at(alloc, 0, b"bool", Entity::Types(BOOL))?;
        scopes.add_at(alloc, 0, b"char", Entity::Types(CHAR))?;
        scopes.add_at(alloc, 0, b"int", Entity::Types(INT))?;
        Ok(scopes)
    }

    /// Opens a scope inside the innermost.
    pub fn enter(&mut self, alloc: Global, is_module: bool) -> Result<(), AllocError>
        ensures ok { OnOk result (self.new ≡ entered is_module self.old) }
        ensures err { OnErr result (self.new ≡ self.old) }
    {
        self.scopes.push(OpenScope {
            is_module,
            names: Vec::new(alloc),
        })?;
        Ok(())
    }

    /// Closes the innermost scope, which is not the standard one, and forgets its names.
    pub fn leave(&mut self)
        requires { 1 < length self.old }
        ensures exact { self.new ≡ outside self.old }
    {
        while self.forget_newest() {}
        let _closed = self.scopes.pop();
    }

    /// Declares the name in the innermost scope, and, where it is exported, in the scope round that
    /// one too; then the innermost is the scope of a module.
    ///
    /// The answer is `Ambiguous` exactly where a scope that is to get the name has it. After a
    /// refusal the scopes are as before.
    pub fn declare(
        &mut self,
        alloc: Global,
        name: &[u8],
        entity: Entity,
        exported: bool,
    ) -> Result<(), ScopeFault>
        requires module { IsTrue exported → IsTrue (in_module self.old) }
        ensures ok { OnOk result (self.new ≡ (if exported then exported_name name.now entity (with_name name.now entity self.old) else with_name name.now
            entity self.old)) }
        ensures ambiguous { (result ≡ Err ScopeFault.Ambiguous) ↔ IsTrue
            (is_some (declared self.old name.now) || (exported && is_some (declared (outside self.old) name.now))) }
        ensures err { OnErr result (self.new ≡ self.old) }
    {
        if self.has(name) {
            return Err(ScopeFault::Ambiguous);
        }
        if exported {
            return self.declare_exported(alloc, name, entity);
        }
        self.add_at(alloc, 0, name, entity)?;
        Ok(())
    }

    /// Declares the name, which the innermost scope has not, there and in the scope round it.
    fn declare_exported(
        &mut self,
        alloc: Global,
        name: &[u8],
        entity: Entity,
    ) -> Result<(), ScopeFault>
        requires free { declared self.old name.now ≡ None }
        requires module { IsTrue (in_module self.old) }
        ensures ok { OnOk result (self.new ≡ exported_name name.now entity (with_name name.now entity self.old)) }
        ensures ambiguous { (result ≡ Err ScopeFault.Ambiguous) ↔ IsTrue (is_some (declared (outside self.old) name.now)) }
        ensures err { OnErr result (self.new ≡ self.old) }
    {
        if self.has_outside(name) {
            return Err(ScopeFault::Ambiguous);
        }
        self.add_at(alloc, 0, name, entity)?;
        if self.add_at(alloc, 1, name, entity).is_err() {
            let _more = self.forget_newest();
            return Err(ScopeFault::NoMemory);
        }
        Ok(())
    }

    /// Declares a name of the innermost scope, which is that of a module, in the scope round it too,
    /// with the same entity.
    ///
    /// The answer is `Ambiguous` exactly where that scope has the name. After a refusal the scopes
    /// are as before.
    pub fn export(&mut self, alloc: Global, name: &[u8]) -> Result<(), ScopeFault>
        requires module { IsTrue (in_module self.old) }
        requires declared { IsTrue (is_some (declared self.old name.now)) }
        ensures ok { OnOk result (IfSome (declared self.old name.now) (λ entity. self.new ≡ exported_name name.now entity self.old)) }
        ensures ambiguous { (result ≡ Err ScopeFault.Ambiguous) ↔ IsTrue (is_some (declared (outside self.old) name.now)) }
        ensures err { OnErr result (self.new ≡ self.old) }
    {
        if self.has_outside(name) {
            return Err(ScopeFault::Ambiguous);
        }
        let Some(entity) = self.look(name) else {
            unreachable!()
        };
        self.add_at(alloc, 1, name, entity)?;
        Ok(())
    }

    /// Declares the name in the scope round the innermost, and, where it is exported, in the scope
    /// round that one too; then the first of these is the scope of a module.
    ///
    /// The answer is `Ambiguous` exactly where a scope that is to get the name has it, and then the
    /// scopes are as before. Where memory is wanting the first of them may have got the name.
    pub fn declare_round(
        &mut self,
        alloc: Global,
        name: &[u8],
        entity: Entity,
        exported: bool,
    ) -> Result<(), ScopeFault>
        requires round { 1 < length self.old }
        requires module { IsTrue exported → IsTrue (in_module (outside self.old)) }
        ensures ok { OnOk result (self.new ≡ take 1 self.old
            ++ (if exported then exported_name name.now entity (with_name name.now entity (outside self.old)) else with_name name.now entity
            (outside self.old))) }
        ensures ambiguous { (result ≡ Err ScopeFault.Ambiguous) ↔ IsTrue
            (is_some (declared (outside self.old) name.now) || (exported && is_some (declared (outside (outside self.old)) name.now))) }
        ensures same { result ≡ Err ScopeFault.Ambiguous → self.new ≡ self.old }
    {
        if self.has_round(name) {
            return Err(ScopeFault::Ambiguous);
        }
        if exported {
            return self.declare_beyond(alloc, name, entity);
        }
        self.add_at(alloc, 1, name, entity)?;
        Ok(())
    }

    /// Declares the name, which the scope round the innermost has not, there and in the scope round it.
    fn declare_beyond(
        &mut self,
        alloc: Global,
        name: &[u8],
        entity: Entity,
    ) -> Result<(), ScopeFault>
        requires free { declared (outside self.old) name.now ≡ None }
        requires module { IsTrue (in_module (outside self.old)) }
        ensures ok { OnOk result (self.new ≡ take 1 self.old ++ exported_name name.now entity (with_name name.now entity (outside self.old))) }
        ensures ambiguous { (result ≡ Err ScopeFault.Ambiguous) ↔ IsTrue (is_some (declared (outside (outside self.old)) name.now)) }
        ensures same { result ≡ Err ScopeFault.Ambiguous → self.new ≡ self.old }
    {
        if self.has_beyond(name) {
            return Err(ScopeFault::Ambiguous);
        }
        self.add_at(alloc, 1, name, entity)?;
        self.add_at(alloc, 2, name, entity)?;
        Ok(())
    }

    /// Declares the name in the scope round the one round the innermost, which is that of a module.
    ///
    /// The answer is `Ambiguous` exactly where that scope has the name. After a refusal the scopes
    /// are as before.
    pub fn export_round(
        &mut self,
        alloc: Global,
        name: &[u8],
        entity: Entity,
    ) -> Result<(), ScopeFault>
        requires module { IsTrue (in_module (outside self.old)) }
        ensures ok { OnOk result (self.new ≡ take 1 self.old ++ exported_name name.now entity (outside self.old)) }
        ensures ambiguous { (result ≡ Err ScopeFault.Ambiguous) ↔ IsTrue (is_some (declared (outside (outside self.old)) name.now)) }
        ensures err { OnErr result (self.new ≡ self.old) }
    {
        if self.has_beyond(name) {
            return Err(ScopeFault::Ambiguous);
        }
        self.add_at(alloc, 2, name, entity)?;
        Ok(())
    }

    /// What the name means: its entity in the innermost scope that has it, and `None` exactly where
    /// no scope has it.
    pub fn look(&self, name: &[u8]) -> Option<Entity>
        ensures exact { result ≡ visible self.now name.now }
    {
        let declaration = self.declarations.of(name).last()?;
        Some(declaration.entity)
    }

    /// One scope with no names.
    fn without_names(alloc: Global) -> Result<Scopes, AllocError>
        ensures exact { IfOk result (λ scopes. scopes ≡ entered false []) }
    {
        let mut scopes = Vec::new(alloc);
        scopes.push(OpenScope {
            is_module: false,
            names: Vec::new(alloc),
        })?;
        Ok(Scopes {
            declarations: Declarations::new(alloc),
            scopes,
        })
    }

    /// Whether the innermost scope has the name.
    fn has(&self, name: &[u8]) -> bool
        ensures exact { result ≡ is_some (declared self.now name.now) }
        ensures some { 0 < length self.now }
    {
        self.declarations.is_at(name, self.scopes.len() - 1)
    }

    /// Whether the scope round the innermost, which is that of a module, has the name.
    fn has_outside(&self, name: &[u8]) -> bool
        requires { IsTrue (in_module self.now) }
        ensures exact { result ≡ is_some (declared (outside self.now) name.now) }
        ensures round { 1 < length self.now }
    {
        self.declarations.is_at(name, self.scopes.len() - 2)
    }

    /// Whether the scope round the innermost has the name.
    fn has_round(&self, name: &[u8]) -> bool
        requires { 1 < length self.now }
        ensures exact { result ≡ is_some (declared (outside self.now) name.now) }
    {
        self.declarations.is_at(name, self.scopes.len() - 2)
    }

    /// Whether the scope round the one round the innermost, which is that of a module, has the name.
    fn has_beyond(&self, name: &[u8]) -> bool
        requires { IsTrue (in_module (outside self.now)) }
        ensures exact { result ≡ is_some (declared (outside (outside self.now)) name.now) }
        ensures beyond { 2 < length self.now }
    {
        self.declarations.is_at(name, self.scopes.len() - 3)
    }

    /// Declares the name in the scope that is so many steps out of the innermost, which has it not.
    fn add_at(
        &mut self,
        alloc: Global,
        steps: usize,
        name: &[u8],
        entity: Entity,
    ) -> Result<(), AllocError>
        requires inside { steps < length self.old }
        requires free { declared (drop steps self.old) name.now ≡ None }
        ensures ok { OnOk result (self.new ≡ with_name_at steps name.now entity self.old) }
        ensures err { OnErr result (self.new ≡ self.old) }
    {
        let depth = self.scopes.len() - 1 - steps;
        let index = self.declarations.further_out(name, depth);
        put_name(&mut self.scopes, alloc, depth, name, entity)?;
        let declaration = Declaration { depth, entity };
        if let Err(e) = self.declarations.insert(alloc, name, index, declaration) {
            let _dropped = take_name(&mut self.scopes, depth);
            return Err(e);
        }
        Ok(())
    }

    /// Forgets the newest name of the innermost scope, and answers whether it had one.
    fn forget_newest(&mut self) -> bool
        ensures exact { self.new ≡ without_newest self.old }
        ensures more { IsTrue result ↔ (0 < length (innermost_names self.old)) }
    {
        let innermost = self.scopes.len() - 1;
        let Some(named) = take_name(&mut self.scopes, innermost) else {
            return false;
        };
        let name = named.name.as_slice();
        let last = self.declarations.of(name).len() - 1;
        self.declarations.remove(name, last);
        true
    }
}

/// The constant of the type `bool` with this ordinal value.
fn truth(ordinal: i16) -> Entity
    ensures exact { result ≡ Entity.Constant BOOL ordinal }
{
    Entity::Constant { of: BOOL, ordinal }
}

/// Puts the name with its entity behind the names of the scope at index `at`.
fn put_name(
    scopes: &mut Vec<OpenScope>,
    alloc: Global,
    at: usize,
    name: &[u8],
    entity: Entity,
) -> Result<(), AllocError>
    requires { at < vec_len scopes.old }
    ensures ok { OnOk result (kept scopes.new ≡ slice_set (kept scopes.old) at (with_one name.now entity (slice_index_or (kept scopes.old) at standard))) }
    ensures err { OnErr result (kept scopes.new ≡ kept scopes.old) }
    ensures len { vec_len scopes.new ≡ vec_len scopes.old }
{
    let name = name.to_vec(alloc)?;
    scopes[at].names.push(Named { name, entity })?;
    Ok(())
}

/// Takes the newest name of the scope at index `at` from there, if it has one.
fn take_name(scopes: &mut Vec<OpenScope>, at: usize) -> Option<Named>
    requires { at < vec_len scopes.old }
    ensures exact { kept scopes.new ≡ slice_set (kept scopes.old) at (without_one (slice_index_or (kept scopes.old) at standard)) }
    ensures newest { option_map name_of result ≡ newest (slice_index_or (kept scopes.old) at standard).names }
    ensures len { vec_len scopes.new ≡ vec_len scopes.old }
{
    scopes[at].names.pop()
}
