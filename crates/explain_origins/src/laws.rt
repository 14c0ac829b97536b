ghost use Rattle.std.specs.Prelude.{◌≡◌, ℕ, Bool, List, Option, length};
ghost use Rattle.control_words.specs.Stack.{lines_in};
ghost use Rattle.service_load.specs.declared.rule_type.RuleType.{RuleType};
ghost use Rattle.service_load.specs.Tree.{tree};
ghost use Rattle.explain_origins.specs.Placed.{Placed, forgotten, placed_tree, places};

/// Without their places, the rules of a service are exactly its stacks, whatever its files hold; and
/// each line of a stack has one place.
pub fn places_are_of_the_stacks()
    ensures stacks { (texts : List ℕ → Option (List ℕ)) (is_directory : Bool)
        (service : List ℕ) (type : RuleType) →
        forgotten (placed_tree texts is_directory service type) ≡ tree texts is_directory service type }
    ensures each { (stack : Placed) → length (places stack) ≡ lines_in (forgotten stack) }
{}
