// A text has one answer at most, and a token is the longest that begins at its place. These functions do nothing: their contracts are the laws.
ghost use Rattle.std.specs.Prelude.{◌≡◌, ◌<◌, ◌≤◌, ℕ, List, Some, length, take};
ghost use Rattle.gr_base.specs.declared.fault.FaultKind.{FaultKind as Kind};
ghost use Rattle.gr_ast.specs.declared.ast.Ast.{Ast as Tree};
ghost use Rattle.gr_script.specs.Columns.{IsColumns, AreRefused};
ghost use Rattle.gr_ast.specs.declared.columns.MatchColumn.{MatchColumn as Column};
ghost use Rattle.gr_script.specs.Text.{IsScript, IsRefused};
ghost use Rattle.gr_script.specs.declared.token.Token.{Token as Taken};
ghost use Rattle.gr_script.specs.Longest.{IsToken};
ghost use Rattle.gr_script.specs.Token.{token_at, tokens_of};

/// As a script a text has one tree at most, or one fault at one place, and not both.
pub fn one_answer_as_script()
    ensures tree { (text : List ℕ) (x y : Tree) → IsScript (tokens_of text) x → IsScript (tokens_of text) y → x ≡ y }
    ensures fault { (text : List ℕ) (kind other : Kind) (at place : ℕ) → IsRefused (tokens_of text) kind at → IsRefused (tokens_of text) other place → (kind ≡ other) × (at ≡ place) }
    ensures either { (text : List ℕ) (x : Tree) (kind : Kind) (at : ℕ) → IsScript (tokens_of text) x → IsRefused (tokens_of text) kind at → ⊥ }
{}

/// As match columns a text has one list at most, or one fault at one place, and not both.
pub fn one_answer_as_columns()
    ensures columns { (text : List ℕ) (xs ys : List Column) → IsColumns (tokens_of text) xs → IsColumns (tokens_of text) ys → xs ≡ ys }
    ensures fault { (text : List ℕ) (kind other : Kind) (at place : ℕ) → AreRefused (tokens_of text) kind at → AreRefused (tokens_of text) other place → (kind ≡ other) × (at ≡ place) }
    ensures either { (text : List ℕ) (xs : List Column) (kind : Kind) (at : ℕ) → IsColumns (tokens_of text) xs → AreRefused (tokens_of text) kind at → ⊥ }
{}

/// No text that begins where a token is taken, and goes further than that token, is a token.
pub fn longest_token()
    ensures { (bytes : List ℕ) (token : Taken) (len more : ℕ) → token_at bytes ≡ Some (token, len) → len < more → more ≤ length bytes → IsToken (take more bytes) → ⊥ }
{}
