//! Laws of binding statements. The functions do nothing: what they promise is the law.

ghost use Rattle.std.specs.Prelude.{◌≡◌, ◌≢◌, ℕ, false, List, Ok, Err};
ghost use Rattle.sql_grammar.specs.Tree.{Chain, Statement};
ghost use Rattle.sql_grammar.specs.declared.error.SqlErrorKind.TheVariants.{NumberTooLarge};
ghost use Rattle.sql_grammar.specs.declared.statement.TablePart.{TablePart};
ghost use Rattle.bound_statements.specs.declared.statement.Bound.{Bound};
ghost use Rattle.binding_model.specs.declared.error.BindErrorKind.{BindErrorKind};
ghost use Rattle.binding_model.specs.declared.error.BindErrorKind.TheVariants.{Sql};
ghost use Rattle.binding_model.specs.declared.error.BindError.{BindError};
ghost use Rattle.binding_model.specs.declared.tables.Table.{Table};
ghost use Rattle.binding_model.specs.Kinds.{has, IsLeast, statement_faults, declaration_faults};
ghost use Rattle.binding_model.specs.Names.{Name};
ghost use Rattle.binding_model.specs.Statements.{statement};
ghost use Rattle.binding_model.specs.Tables.{create};
ghost use Rattle.binding_model.specs.Chains.{ChainsKeepParts, ChainsAreLists, ChainsNameFirstKeys, AlternativesNameNoKey};

/// What is told of a chain of AND or of OR, as whether a row meets it, follows from the list of its parts, and so does the key that it names.
pub fn chains_are_lists()
    ensures kept { ChainsKeepParts }
    ensures parts { ChainsAreLists }
    ensures first_key { ChainsNameFirstKeys }
    ensures no_key { AlternativesNameNoKey }
{}

/// A statement that binding refuses has a fault of the kind that is told, and none of a kind with a smaller number; one that is bound has no fault.
/// A number past 64 bits is no fault of binding: the reader tells it.
pub fn least_kinds_are_told()
    ensures refused { (tables : List Table) (at : ℕ) (s : Statement) (e : BindError)
        → statement tables at s ≡ Err e → e.kind ≢ Sql NumberTooLarge → IsLeast (statement_faults tables at s) e.kind }
    ensures bound { (tables : List Table) (at : ℕ) (s : Statement) (b : Bound)
        → statement tables at s ≡ Ok b → (k : BindErrorKind) → has (statement_faults tables at s) k ≡ false }
    ensures declared { (tables : List Table) (at : ℕ) (name : Name) (parts : Chain TablePart) (e : BindError)
        → create tables at name parts ≡ Err e → IsLeast (declaration_faults tables name parts) e.kind }
{}
