ghost use Rattle.std.specs.Prelude.{◌≡◌, ◌≢◌, ◌⊎◌, ◌<◌, ◌^◌, ℕ, List, Some, Ok, false};
ghost use Rattle.account_db.specs.declared.shadow.Shadow.{Shadow};
ghost use Rattle.account_db.specs.Replace.{Placed, changed_entries, renewed, with_hash};
ghost use Rattle.account_db.specs.Shadow.{shadow_of, shadows_of};
ghost use Rattle.pam_base.specs.Bytes.{has_byte};

/// A law: a new hash leaves every other byte of the file as it was.
pub fn hash_is_put_in_place()
    ensures { (user hash : List ℕ) (day : ℕ) (text : List ℕ) →
        (with_hash user hash day text ≡ text) ⊎ Placed user hash day text
        (with_hash user hash day text) }
{}

/// A law: a file with a new hash is read as the same entries, except that the first entry of the user has this hash and
/// this day (`shadow(5)`). A hash contains no colon and no newline, and a day has at most nine digits.
pub fn new_hash_is_read()
    ensures read { (user hash : List ℕ) (day : ℕ) (text : List ℕ) (entries : List Shadow) →
        has_byte 58 hash ≡ false → has_byte 10 hash ≡ false → day < 10 ^ 9 →
        shadows_of text ≡ Ok entries → shadows_of (with_hash user hash day text)
        ≡ Ok (changed_entries user hash day entries) }
    ensures users { (user hash : List ℕ) (day : ℕ) (entries : List Shadow) (entry : Shadow) →
        shadow_of user entries ≡ Some entry →
        shadow_of user (changed_entries user hash day entries) ≡ Some (renewed hash day entry) }
    ensures others { (user hash : List ℕ) (day : ℕ) (other : List ℕ) (entries : List Shadow) →
        other ≢ user →
        shadow_of other (changed_entries user hash day entries) ≡ shadow_of other entries }
{}
