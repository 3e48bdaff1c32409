//! Laws of binding. The functions do nothing: what they promise is the law.

ghost use Rattle.std.specs.Prelude.{◌≡◌, ◌≢◌, ◌↔◌, ℕ, List, [], Ok, Err};
ghost use Rattle.sql_grammar.specs.Grammar.{Fault, FirstFault};
ghost use Rattle.sql_grammar.specs.Lexing.{token_list};
ghost use Rattle.sql_grammar.specs.Text.{StatementAt, IsSpelled};
ghost use Rattle.sql_grammar.specs.declared.error.SqlErrorKind.TheVariants.{NoMemory};
ghost use Rattle.spec_reader.specs.Tree.{SpecTree};
ghost use Rattle.sql_grammar.specs.Tree.{Statement};
ghost use Rattle.bound_statements.specs.declared.statement.Bound.{Bound};
ghost use Rattle.binding_model.specs.declared.tables.Table.{Table};
ghost use Rattle.bound_specs.specs.Fits.{Fits, SpecFits};
ghost use Rattle.binding_model.specs.Statements.{statement};
ghost use Rattle.binding_model.specs.declared.error.BindError.{BindError};
ghost use Rattle.binding_model.specs.Refusals.{IsNamed};
ghost use Rattle.bound_specs.specs.Levels.{AskAlways};
ghost use Rattle.bound_specs.specs.Spec.{SpecFile};
ghost use Rattle.bound_specs.specs.Binding.{IsFileAt, IsFileOf, read_text, bound_file, declared, main_setup};

/// A text is that of one file at most, where levels are not asked for, and at each level.
pub fn one_file()
    ensures one { (text : List ℕ) (a b : SpecFile) → IsFileOf text a → IsFileOf text b → a ≡ b }
    ensures levels { (text : List ℕ) (a b : SpecFile) → a.asked ≡ b.asked → IsFileAt text a → IsFileAt text b → a ≡ b }
{}

/// Where levels are not asked for, each statement of a file asks for its whole plan, whatever the level that a BEGIN names.
pub fn files_ask_always()
    ensures { (text : List ℕ) (file : SpecFile) → IsFileOf text file → AskAlways file.run }
{}

/// What a block's text says is what it spells by the grammar; where it spells nothing, it has a first fault, which is never want of memory.
pub fn blocks_are_spelled()
    ensures spelled { (text : List ℕ) (ss : List StatementAt) → (read_text text ≡ Ok ss) ↔ IsSpelled text ss }
    ensures refused { (text : List ℕ) (f : Fault) → (read_text text ≡ Err f) ↔ FirstFault (token_list text) f }
    ensures memory { (text : List ℕ) (f : Fault) → FirstFault (token_list text) f → f.kind ≢ NoMemory }
{}

/// No refusal that the file itself has is want of memory: neither binding's own, nor one of reading SQL.
pub fn refusals_are_named()
    ensures { (text : List ℕ) (tree : SpecTree) (e : BindError) → bound_file text tree ≡ Err e → IsNamed e.kind }
{}

/// A statement that is bound fits the tables: its table and its columns are there, arithmetic and sums are of numbers alone, what is compared has one type,
/// what is set has its column's, and a new row has a value for each column, of its type.
pub fn bound_statements_fit()
    ensures { (tables : List Table) (at : ℕ) (s : Statement) (b : Bound) → statement tables at s ≡ Ok b → Fits tables b }
{}

/// All statements of a spec file fit the tables that its main setups declare, where levels are not asked for, and at each level.
pub fn bound_files_fit()
    ensures levels { (text : List ℕ) (file : SpecFile) → (is : IsFileAt text file) → (main : List Table × List (List Bound))
        × ((declared main_setup [] is.tree.front.setups ≡ Ok main) × SpecFits main.0 file.run) }
    ensures fit { (text : List ℕ) (file : SpecFile) → (is : IsFileOf text file) → (main : List Table × List (List Bound))
        × ((declared main_setup [] is.tree.front.setups ≡ Ok main) × SpecFits main.0 file.run) }
{}
