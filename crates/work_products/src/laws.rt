//! What holds of all records and of all stores. The functions do nothing: their contracts are laws, for every reader to cite.

ghost use Rattle.std.specs.Prelude.{◌≡◌, ◌≢◌, ◌⊎◌, ◌<◌, ◌≤◌, ◌++◌, ℕ, Bool, true, cond, List, [], length, take, slice_index, slice_set, None, Result, Ok};
ghost use Rattle.std.specs.FinMap.{empty, get, insert, remove};
ghost use Rattle.outside.specs.Held.{Held};
ghost use Rattle.sha2.specs.Sha256.{sha256};
ghost use Rattle.unit_input.specs.Inputs.{PlainInput};
ghost use Rattle.unit_input.specs.Rules.{IsInput};
ghost use Rattle.unit_input.specs.Spelling.{spell};
ghost use Rattle.work_products.specs.Faithful.{AreMade, HasObject, IsFaithful, Made, after_build};
ghost use Rattle.work_products.specs.Pruning.{is_stale, pruned};
ghost use Rattle.work_products.specs.Records.{Record, SpellsRecord, is_record_name, max_record, record_name, record_written};
ghost use Rattle.work_products.specs.Store.{newest, whole};
ghost use Rattle.work_products.specs.Sealed.{Collide, before_digest, digest_in};

/// Bytes are one record at most, and no strict prefix of a record is one. The digest at the end of a record is that of all bytes
/// before it. So a record in which one byte was changed is none, unless two different texts have one digest.
pub fn records()
    ensures one { (bytes : List ℕ) (r s : Record) → SpellsRecord bytes r → SpellsRecord bytes s → r ≡ s }
    ensures whole { (bytes more : List ℕ) (r s : Record) → SpellsRecord (bytes ++ more) r → SpellsRecord bytes s → more ≡ [] }
    ensures sealed { (bytes : List ℕ) (r : Record) → SpellsRecord bytes r → digest_in bytes ≡ sha256 (before_digest bytes) }
    ensures changed { (bytes : List ℕ) (place byte : ℕ) (r s : Record) → SpellsRecord bytes r
        → SpellsRecord (slice_set bytes place byte) s
        → (slice_set bytes place byte ≡ bytes) ⊎ Collide (before_digest (slice_set bytes place byte)) (before_digest bytes) }
    ensures names { (text : List ℕ) → is_record_name (record_name text) ≡ true }
{}

/// Which bytes have an object for a text: a whole record of this very text that is no longer than one may be, and no other bytes.
/// What is kept of a text is found, whatever the store held. What a prune leaves of a name.
pub fn stores()
    ensures whole { (text bytes : List ℕ) (r : Record) → SpellsRecord bytes r → length bytes ≤ max_record → r.text ≡ text
        → whole text bytes ≡ newest r.version r.object }
    ensures other { (text bytes : List ℕ) (r : Record) → SpellsRecord bytes r → r.text ≢ text → whole text bytes ≡ None }
    ensures long { (text bytes : List ℕ) → max_record < length bytes → whole text bytes ≡ None }
    ensures none { (text bytes : List ℕ) → ((place : ℕ) → slice_index bytes place < 256) → ((r : Record) → SpellsRecord bytes r → ⊥)
        → whole text bytes ≡ None }
    ensures kept { (held : Held) (text object bytes : List ℕ) → record_written text object ≡ Ok bytes
        → HasObject (insert held (record_name text) bytes) text object }
    ensures pruned { (names : List (List ℕ)) (held : Held) (name : List ℕ)
        → get (pruned names held) name ≡ cond (is_stale names name) None (get held name) }
{}

/// A store without records is faithful. It stays so where the record of what was made of an input is saved under any name, wholly
/// or up to any byte, where a name is removed, where names are pruned, and after a build. An object that is found in it is the one
/// that is made.
pub fn faithful_stores<E>()
    ensures empty { (made : PlainInput → Result (List ℕ) E) → IsFaithful made empty }
    ensures saved { (made : PlainInput → Result (List ℕ) E) (held : Held) (x : PlainInput) (object bytes name : List ℕ) (n : ℕ)
        → IsFaithful made held → IsInput x → made x ≡ Ok object → record_written (spell x) object ≡ Ok bytes
        → IsFaithful made (insert held name (take n bytes)) }
    ensures removed { (made : PlainInput → Result (List ℕ) E) (held : Held) (name : List ℕ) → IsFaithful made held
        → IsFaithful made (remove held name) }
    ensures pruned { (made : PlainInput → Result (List ℕ) E) (held : Held) (names : List (List ℕ)) → IsFaithful made held
        → IsFaithful made (pruned names held) }
    ensures built { (made : PlainInput → Result (List ℕ) E) (held : Held) (these : List Made) (prune : Bool) (names : List (List ℕ))
        → IsFaithful made held → AreMade made these → IsFaithful made (after_build these prune names held) }
    ensures found { (made : PlainInput → Result (List ℕ) E) (held : Held) (x : PlainInput) (object : List ℕ)
        → IsFaithful made held → IsInput x → HasObject held (spell x) object
        → made x ≡ Ok object }
{}
