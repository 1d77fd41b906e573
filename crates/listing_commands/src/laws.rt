//! Laws on what `list` and `assemble` make.
ghost use Rattle.std.specs.Prelude.{◌≡◌, true, false};
ghost use lib.Chars.{codes};
ghost use Rattle.listing_commands.specs.Listing.{is_words_name, listing_name};
ghost use Rattle.listing_commands.specs.Assembling.{assembled_name};
ghost use Rattle.listing_commands.specs.Undoing.{AssembleUndoesList, ListUndoesAssemble, OneFileOfText};
ghost use Rattle.listing_commands.specs.Worked.{OneByteListed, OneByteAssembled, SecondSpellingRefused};

/// Of what `list` made of a file, `assemble` makes the bytes of that file. Of what `assemble` made of a text, `list` makes that
/// text, where the file is within the limit of files that are listed and its name is one of its kind. And of one text
/// `assemble` makes one file.
pub fn listings_undo_each_other()
    ensures assembled { AssembleUndoesList }
    ensures listed { ListUndoesAssemble }
    ensures one_file { OneFileOfText }
{}

/// Worked examples: the names of inputs and outputs.
pub fn output_names()
    ensures words { is_words_name (codes "a.pcap.words") ≡ true }
    ensures lane { is_words_name (codes "a.lane.0") ≡ false }
    ensures only_the_ending { is_words_name (codes "a.words.bin") ≡ false }
    ensures listing { listing_name (codes "a.pcap.words") ≡ codes "a.pcap.words.txt" }
    ensures assembled { assembled_name (codes "a.txt") ≡ codes "a.txt.bin" }
{}

/// Worked examples: a lane of one byte, listed and assembled again; and a Sync word written as any code, which is refused.
pub fn worked_files()
    ensures listed { OneByteListed }
    ensures assembled { OneByteAssembled }
    ensures refused { SecondSpellingRefused }
{}
