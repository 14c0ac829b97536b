ghost use Rattle.std.specs.Prelude.{◌≡◌, [], List, true, ℕ};
ghost use Rattle.front_conv.specs.Front.{AreReplyFrames};
ghost use Rattle.front_conv.specs.Spelled.{only_from, texts_from};

/// A law: the frames of replies, one after another, spell these replies in their order, and nothing else. So a front end
/// that sends them is modelled by them.
pub fn frames_spell_replies()
    ensures texts { (texts : List (List ℕ)) (bytes : List ℕ) → AreReplyFrames texts bytes →
        texts_from [] bytes ≡ texts }
    ensures only { (texts : List (List ℕ)) (bytes : List ℕ) → AreReplyFrames texts bytes →
        only_from [] bytes ≡ true }
{}
