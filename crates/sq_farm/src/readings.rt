//! What the calls of a farm do to what is read of it: by channel, by question, by process, by loss.
//!
//! The functions do nothing. Their clauses are laws of the definitions, for callers that keep such readings.
ghost use Rattle.std.specs.Prelude.{◌≡◌, ◌<◌, ◌≤◌, ◌+◌, ◌∷◌, ◌++◌, ◌==◌, [], ℕ, suc, List, not, ◌&&◌, ◌||◌, filter, length, map, true, if◌then◌else◌, Some};
ghost use Rattle.std.specs.declared.option.Option.{Option};
ghost use Rattle.sq_base.specs.declared.helpers.Cause.{Cause};
ghost use Rattle.sq_machine.specs.Channels.{asked, free_count, freed, is_open, least_free, opened, settled, slot_at, times_open};
ghost use Rattle.sq_machine.specs.Living.{Living, is_target, lives, living_number, sent, settled_in, slots_in, target, with_proc, without};
ghost use Rattle.sq_machine.specs.Losses.{AreOfCause, Loss, lose_all, times_lost};
ghost use Rattle.sq_machine.specs.Rising.{AreBelow, Rises, times_of};

/// What a question and a reply do to the channels of a process.
pub fn channel_readings()
    ensures slot_asked { (q : ℕ) (slots : List (Option ℕ)) (n : ℕ) → 0 < free_count slots
        → slot_at (asked q slots) n ≡ (if n == least_free slots then Some q else slot_at slots n) }
    ensures slot_settled { (q : ℕ) (slots : List (Option ℕ)) (n : ℕ)
        → slot_at (settled q slots) n ≡ freed q (slot_at slots n) }
    ensures open_asked { (p q : ℕ) (slots : List (Option ℕ)) → 0 < free_count slots
        → is_open p (asked q slots) ≡ (p == q || is_open p slots) }
    ensures open_settled { (p q : ℕ) (slots : List (Option ℕ))
        → is_open p (settled q slots) ≡ (not (p == q) && is_open p slots) }
    ensures count_asked { (q : ℕ) (slots : List (Option ℕ)) → 0 < free_count slots
        → length (opened (asked q slots)) ≡ suc (length (opened slots)) }
    ensures count_settled { (q : ℕ) (slots : List (Option ℕ)) → is_open q slots ≡ true
        → times_open q slots ≤ 1 → suc (length (opened (settled q slots))) ≡ length (opened slots) }
    ensures times_opened { (q : ℕ) (slots : List (Option ℕ))
        → times_open q slots ≡ times_of q (opened slots) }
{}

/// What a send, a reply, an end and a start do to the processes.
pub fn process_readings()
    ensures slots_sent { (j q : ℕ) (rows : List Living) → Rises (map living_number rows)
        → slots_in j (sent q rows)
        ≡ (if is_target j (target rows) then asked q (slots_in j rows) else slots_in j rows) }
    ensures slots_settled { (j k q : ℕ) (rows : List Living)
        → slots_in j (settled_in k q rows)
        ≡ (if j == k then settled q (slots_in j rows) else slots_in j rows) }
    ensures slots_without { (j k : ℕ) (rows : List Living)
        → slots_in j (without k rows) ≡ (if j == k then [] else slots_in j rows) }
    ensures slots_with { (j : ℕ) (p : Living) (rows : List Living)
        → slots_in j (with_proc p rows)
        ≡ (if j == p.number then p.process.slots else slots_in j rows) }
    ensures lives_without { (j k : ℕ) (rows : List Living)
        → lives j (without k rows) ≡ (not (j == k) && lives j rows) }
    ensures lives_with { (j : ℕ) (p : Living) (rows : List Living)
        → lives j (with_proc p rows) ≡ (j == p.number || lives j rows) }
    ensures numbers_sent { (q : ℕ) (rows : List Living)
        → map living_number (sent q rows) ≡ map living_number rows }
    ensures numbers_settled { (k q : ℕ) (rows : List Living)
        → map living_number (settled_in k q rows) ≡ map living_number rows }
    ensures numbers_without { (k : ℕ) (rows : List Living)
        → map living_number (without k rows) ≡ filter (λ n. not (k == n)) (map living_number rows) }
    // A process whose number is above all others comes last.
    ensures last { (p : Living) (rows : List Living) → AreBelow p.number (map living_number rows)
        → with_proc p rows ≡ rows ++ p ∷ [] }
{}

/// What an end or a failed start does to the lost questions.
pub fn loss_readings()
    ensures times { (q : ℕ) (c : Cause) (qs : List ℕ) (ls : List Loss)
        → times_lost q (lose_all c qs ls) ≡ times_of q qs + times_lost q ls }
    ensures causes { (c : Cause) (qs : List ℕ) (ls : List Loss) → AreOfCause c ls
        → AreOfCause c (lose_all c qs ls) }
    ensures count { (c : Cause) (qs : List ℕ) (ls : List Loss)
        → length (lose_all c qs ls) ≡ length qs + length ls }
{}
