//! Laws of the definitions: each text has one answer. The functions do nothing; their contracts are
//! the laws.

ghost use Rattle.lambda_expr.specs.declared.fault.ReadFault.{ReadFault};
ghost use Rattle.lambda_values.specs.declared.lambda.Lambda.{Lambda};
ghost use Rattle.lambda_expr.specs.declared.want.Want.{Want};
ghost use Rattle.lambda_expr.specs.declared.lexeme.Lexeme.{Lexeme as word};
ghost use Rattle.lambda_expr.specs.Heads.{ALambda, BodyShape, IsLambda};
ghost use Rattle.lambda_expr.specs.Stops.{StopsAt};
ghost use Rattle.lambda_expr.specs.Numbers.{IsNumberRefused, SpellsNumber};
ghost use Rattle.lambda_values.specs.Cells.{cells_of};
ghost use Rattle.lambda_values.specs.Lambda.{AbstractLambda, body_of};
ghost use Rattle.lambda_values.specs.Places.{is_placeless};
ghost use Rattle.lambda_expr.specs.Refusals.{IsRefusedWithin, Judged, NamesNoPlace, SpellsLambda, SpellsLambdaWithin};
ghost use Rattle.stream_tokens.specs.Tokens.{AreTokensOf};
ghost use Rattle.std.specs.Prelude.{◌≡◌, ◌≢◌, ◌⊎◌, ℕ, ℤ, Bool, true, List, [], Ok};
ghost use Rattle.stream_tokens.specs.declared.token.Token.{Token};

/// Words are one lambda of a want at most.
pub fn one_reading()
    ensures { (ws : List word) (want : Want) (b c : BodyShape) →
        IsLambda want ws b → IsLambda want ws c → b ≡ c }
{}

/// Words stop being the beginning of a lambda of a want at one place at most.
pub fn one_stop()
    ensures { (ws : List word) (want : Want) (m n : ℕ) →
        StopsAt (ALambda want) ws m → StopsAt (ALambda want) ws n → m ≡ n }
{}

/// A text spells one lambda at most, is refused for one thing at most, and not both, out of memory
/// apart. So `read_lambda` answers `Ok` for every text that spells a lambda, unless an allocation
/// failed.
pub fn one_answer()
    ensures lambda { (cells : Bool) (text : List ℕ) (want : Want) (l m : Lambda) →
        SpellsLambdaWithin cells text want l → SpellsLambdaWithin cells text want m → body_of l.body ≡ body_of m.body }
    ensures refusal { (cells : Bool) (text : List ℕ) (want : Want) (f g : ReadFault) →
        IsRefusedWithin cells text want f → IsRefusedWithin cells text want g →
        f ≢ ReadFault.NoMemory → g ≢ ReadFault.NoMemory → f ≡ g }
    ensures apart { (cells : Bool) (text : List ℕ) (want : Want) (l : Lambda) (f : ReadFault) →
        SpellsLambdaWithin cells text want l → IsRefusedWithin cells text want f → f ≡ ReadFault.NoMemory }
{}

/// A text that is cut into tokens spells a lambda or is refused, out of memory apart; by `one_answer` not
/// both.
pub fn each_text_has_an_answer()
    ensures { (cells : Bool) (text : List ℕ) (tokens : List Token) (want : Want) → AreTokensOf tokens text →
        ((t : AbstractLambda) × Judged cells text want (Ok t))
        ⊎ ((f : ReadFault) × (f ≢ ReadFault.NoMemory) × IsRefusedWithin cells text want f) }
{}

/// A text that has neither cells nor rows spells lambdas that are placeless, so they name no column.
pub fn without_cells()
    ensures placeless { (text : List ℕ) (want : Want) (l : Lambda) →
        SpellsLambda text want l → is_placeless (body_of l.body) ≡ true }
    ensures cells { (text : List ℕ) (want : Want) (l : Lambda) →
        SpellsLambda text want l → cells_of (body_of l.body) ≡ [] }
{}

/// A text in which neither `cell`, nor `row`, nor a string stands has the same answers, whether it may have cells and
/// rows or not.
pub fn same_without_the_word()
    ensures spells { (b c : Bool) (text : List ℕ) (want : Want) (l : Lambda) → NamesNoPlace text →
        SpellsLambdaWithin b text want l → SpellsLambdaWithin c text want l }
    ensures refused { (b c : Bool) (text : List ℕ) (want : Want) (f : ReadFault) → NamesNoPlace text →
        IsRefusedWithin b text want f → IsRefusedWithin c text want f }
{}

/// Tokens spell one number at most, are refused for one thing at most, and not both.
pub fn one_number()
    ensures number { (text : List ℕ) (ts : List Token) (y z : ℤ) →
        SpellsNumber text ts y → SpellsNumber text ts z → y ≡ z }
    ensures refusal { (text : List ℕ) (ts : List Token) (f g : ReadFault) →
        IsNumberRefused text ts f → IsNumberRefused text ts g → f ≡ g }
    ensures apart { (text : List ℕ) (ts : List Token) (z : ℤ) (f : ReadFault) →
        SpellsNumber text ts z → IsNumberRefused text ts f → ⊥ }
{}
