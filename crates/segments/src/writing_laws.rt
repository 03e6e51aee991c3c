//! Laws of segments that are written.

ghost use Rattle.std.specs.Prelude.{All, List, drop, slice_index_or, ℕ, [], ◌≡◌};
ghost use Rattle.std.specs.List.{join_with_byte};
ghost use Rattle.segments.specs.Elements.{tail_from, without_end_stars};
ghost use Rattle.segments.specs.SegmentSpelling.{SpellsSegment, SpellsSegments};
ghost use Rattle.segments.specs.SegmentWriting.{IsLine, segment_of, segments_of, text_of, without_empty_end};
ghost use Rattle.segments.specs.Views.{element_of};

/// What is written of an id and elements is a segment, and each element and the tail are read as they were given. Lines, one after
/// another, are the text of their segments.
pub fn written_segments_are_read()
    ensures element { (place number : ℕ) (parts : List (List ℕ)) → element_of (segment_of place parts) number ≡ slice_index_or parts number [] }
    ensures tail { (place number : ℕ) (parts : List (List ℕ)) → tail_from number (segment_of place parts) ≡ without_end_stars (join_with_byte 42 (drop number parts)) }
    ensures rest { (place number : ℕ) (parts : List (List ℕ)) → drop number (segment_of place parts).parts ≡ without_empty_end (drop number parts) }
    ensures spelled { (place : ℕ) (parts : List (List ℕ)) → IsLine parts → SpellsSegment (segment_of place parts) }
    ensures lines { (place : ℕ) (rows : List (List (List ℕ))) → All IsLine rows → SpellsSegments place (segments_of place rows) (text_of rows) }
{}
