//! The laws of a search. The functions do nothing: the contract of each is the law.
ghost use Rattle.std.specs.Prelude.{◌≡◌, ◌<◌, ◌≤◌, ◌+◌, ℕ, All, IsTrue, List, Ok, [], ◌∷◌, drop, false, length, map};
ghost use Rattle.bp_core.specs.declared.rectangle.Rect.{Rect};
ghost use Rattle.bp_matter.specs.Matter.{Matter};
ghost use Rattle.bp_text.specs.Kept.{kept_of};
ghost use Rattle.bp_looks.specs.Covered.{IsCovered, is_covered};
ghost use Rattle.bp_looks.specs.Finding.{find};
ghost use Rattle.bp_looks.specs.Found.{found_of, hits_in};
ghost use Rattle.bp_looks.specs.Going.{all_hits, going_on};
ghost use Rattle.bp_looks.specs.Hits.{has_hit};
ghost use Rattle.bp_looks.specs.Matching.{matches};
ghost use Rattle.bp_looks.specs.Parts.{documents_of, page_part, page_texts, page_words, parts_from};
ghost use Rattle.bp_looks.specs.Terms.{are_terms};

/// Going on from where each search stops gives every hit of every part from the first one on, each once:
/// so many searches are enough as there are parts.
pub fn going_on_law()
    ensures { (m : Matter) (terms : List (List ℕ)) (from page n : ℕ) →
        1 ≤ from →
        let parts = parts_from (documents_of m) from page in
        length parts ≤ n →
        going_on n (documents_of m) terms from page ≡ all_hits terms parts }
{}

/// Where a search stops another can begin: it is not refused.
pub fn next_law()
    ensures { (m : Matter) (terms : List (List ℕ)) (from page : ℕ) →
        IsTrue (are_terms terms) →
        1 ≤ from →
        let found = found_of m terms from page in
        0 < found.next →
        find m terms found.next found.next_page
        ≡ Ok (found_of m terms found.next found.next_page) }
{}

/// After every hit of a page is covered, which is that some box touches each word of it: no kept word
/// matches a lone term, and no place is a hit of several terms of which some word isn't covered.
pub fn covered_law()
    ensures one { (m : Matter) (doc page : ℕ) (term : List ℕ) (boxes : List Rect) →
        let words = page_words m doc page in
        All (IsCovered boxes words) (hits_in (term ∷ []) (page_part m doc page)) →
        All (λ word. matches term word.text ≡ false) (kept_of words boxes) }
    ensures several { (m : Matter) (doc page : ℕ) (terms : List (List ℕ)) (boxes : List Rect) →
        let words = page_words m doc page in
        All (IsCovered boxes words) (hits_in terms (page_part m doc page)) →
        (place j : ℕ) →
        place < length words →
        j < length terms →
        is_covered boxes words (place + j) ≡ false →
        has_hit terms (drop place (page_texts m doc page)) ≡ false }
{}
