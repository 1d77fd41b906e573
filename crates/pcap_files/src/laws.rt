ghost use Rattle.std.specs.Prelude.{◌≡◌, ◌↔◌, ◌+◌, ◌<◌, ℕ, All, List, [], ◌∷◌, ◌++◌, length, None, Ok, Err};
ghost use Rattle.std.specs.List.{AllByRecursion};
ghost use Rattle.pcap_files.specs.declared.order.Order.{Order};
ghost use Rattle.pcap_files.specs.declared.error.PcapError.TheVariants.{Magic, NgFile, Version, Short, Empty, Long};
ghost use Rattle.pcap_files.specs.Capture.{header_of, reading_of, capture_of};
ghost use Rattle.pcap_files.specs.Records.{AreRecords, IsWithin, space_of};
ghost use Rattle.pcap_files.specs.Written.{Fits, header_bytes, capture_bytes};
ghost use Rattle.pcap_files.specs.Examples.{little_header, big_header, little_head, big_head, newer_format};

/// The packets of a capture are those of its records, one after the other from the header on, and a refusal is that of
/// the record after them. There is none if the bytes end there, and only then.
pub fn records_stand()
    ensures records { (bytes : List ℕ) (most : ℕ) (order : Order) →
        header_of bytes ≡ Ok order → AreRecords order most bytes (reading_of bytes most) }
    ensures end { (bytes : List ℕ) (most : ℕ) (order : Order) →
        header_of bytes ≡ Ok order →
        ((reading_of bytes most).refusal ≡ None) ↔ (24 + space_of (reading_of bytes most).packets ≡ length bytes) }
{}

/// Each packet of an accepted capture has 1 to `most` bytes, with the header their records take the whole file, and
/// if the file's numbers are bytes, so are the packets'.
pub fn packets_fit()
    ensures within { (bytes : List ℕ) (most : ℕ) (packets : List (List ℕ)) →
        capture_of bytes most ≡ Ok packets → AllByRecursion (IsWithin most) packets }
    ensures whole { (bytes : List ℕ) (most : ℕ) (packets : List (List ℕ)) →
        capture_of bytes most ≡ Ok packets → 24 + space_of packets ≡ length bytes }
    ensures bytes { (bytes : List ℕ) (most : ℕ) (packets : List (List ℕ)) →
        All (λ b. b < 256) bytes → capture_of bytes most ≡ Ok packets →
        AllByRecursion (All (λ b. b < 256)) packets }
{}

/// A capture that was written is read as its packets. It has 24 bytes and 16 more than each packet.
pub fn written_is_read()
    ensures space { (link_type : ℕ) (packets : List (List ℕ)) →
        length (capture_bytes link_type packets) ≡ 24 + space_of packets }
    ensures read { (link_type most : ℕ) (packets : List (List ℕ)) →
        AllByRecursion (Fits most) packets →
        capture_of (capture_bytes link_type packets) most ≡ Ok packets }
{}

/// Worked examples: the header that is written; captures in both byte orders; each refusal.
pub fn examples()
    ensures written { header_bytes 1 ≡ little_header }
    ensures little { capture_of (little_header ++ (little_head 3 ++ (7 ∷ 8 ∷ 9 ∷ (little_head 1 ++ 5 ∷ [])))) 3
        ≡ Ok ((7 ∷ 8 ∷ 9 ∷ []) ∷ (5 ∷ []) ∷ []) }
    ensures big { capture_of (big_header ++ (big_head 2 ++ 7 ∷ 8 ∷ [])) 2 ≡ Ok ((7 ∷ 8 ∷ []) ∷ []) }
    ensures none { capture_of big_header 2 ≡ Ok [] }
    ensures newer { capture_of newer_format 2 ≡ Err NgFile }
    ensures three_bytes { capture_of (0xD4 ∷ 0xC3 ∷ 0xB2 ∷ []) 2 ≡ Err (Short 0) }
    ensures magic { capture_of (0xD4 ∷ 0xC3 ∷ 0xB2 ∷ 0xA2 ∷ []) 2 ≡ Err (Magic 0xD4C3B2A2) }
    ensures short_header { capture_of (0xD4 ∷ 0xC3 ∷ 0xB2 ∷ 0xA1 ∷ 3 ∷ []) 2 ≡ Err (Short 0) }
    ensures version { capture_of (0xA1 ∷ 0xB2 ∷ 0xC3 ∷ 0xD4 ∷ 0 ∷ 2 ∷ 1 ∷ 4 ∷ little_header) 2
        ≡ Err (Version 2 260) }
    ensures seven_bytes { capture_of (little_header ++ 0 ∷ 0 ∷ 0 ∷ 0 ∷ 0 ∷ 0 ∷ 0 ∷ []) 2
        ≡ Err (Short 24) }
    ensures empty { capture_of (little_header ++ little_head 0) 2 ≡ Err (Empty 0) }
    ensures long { capture_of (little_header ++ (little_head 1 ++ (5 ∷ little_head 3))) 2
        ≡ Err (Long 1 3) }
    ensures cut { capture_of (little_header ++ (little_head 1 ++ (5 ∷ (little_head 2 ++ 5 ∷ [])))) 2
        ≡ Err (Short 41) }
{}
