//! What a put does to the environment, in words of their own.
ghost use Rattle.std.specs.Prelude.{◌≡◌, ◌≢◌, [], ◌∷◌, ◌++◌, map, false, true, ℕ, List, Some, None, length};
ghost use Rattle.pam_base.specs.Bytes.{has_byte};
ghost use Rattle.env_list.specs.Environment.{Variable, HaveDifferentNames, is_set, value_of, with_value, without, name_in, value_in, is_deletion};

/// `NAME=VALUE` sets the name to the value, whatever the value holds, and `NAME` alone deletes it.
pub fn put_texts()
    ensures name { (name value : List ℕ) → has_byte 61 name ≡ false →
        name_in (name ++ 61 ∷ value) ≡ name }
    ensures value { (name value : List ℕ) → has_byte 61 name ≡ false →
        value_in (name ++ 61 ∷ value) ≡ value }
    ensures sets { (name value : List ℕ) → is_deletion (name ++ 61 ∷ value) ≡ false }
    ensures deletes { (name : List ℕ) → has_byte 61 name ≡ false → is_deletion name ≡ true }
    ensures deleted { (name : List ℕ) → has_byte 61 name ≡ false → name_in name ≡ name }
{}

/// A name that was put has its value, and every other name the value that it had. A name that is
/// set keeps its position among the names, and a new one goes last.
pub fn setting_keeps_the_place()
    ensures same { (name value : List ℕ) (variables : List Variable) →
        value_of name (with_value name value variables) ≡ Some value }
    ensures others { (name other value : List ℕ) (variables : List Variable) → other ≢ name →
        value_of other (with_value name value variables) ≡ value_of other variables }
    ensures place { (name value : List ℕ) (variables : List Variable) →
        is_set name variables ≡ true →
        map (λ variable. variable.name) (with_value name value variables)
        ≡ map (λ variable. variable.name) variables }
    ensures last { (name value : List ℕ) (variables : List Variable) →
        is_set name variables ≡ false →
        with_value name value variables ≡ variables ++ record { name = name; value = value } ∷ [] }
{}

/// A name that was deleted is unset, and every other name has the value that it had. The variables
/// after it move up, in their order.
pub fn deleting_closes_up()
    ensures same { (name : List ℕ) (variables : List Variable) →
        value_of name (without name variables) ≡ None }
    ensures others { (name other : List ℕ) (variables : List Variable) → other ≢ name →
        value_of other (without name variables) ≡ value_of other variables }
    ensures closes { (variable : Variable) (before the_rest : List Variable) →
        HaveDifferentNames (before ++ variable ∷ the_rest) →
        without variable.name (before ++ variable ∷ the_rest) ≡ before ++ the_rest }
{}
