//! Laws on gathered words and places.
ghost use Rattle.lane_words.specs.GatheredLaws.{CleanLanesGiveStream, LanesAreGivenBack, WordsAreOfEpochs, WordsDeliverAsEpochs, WordsGrow, WorkedWords, WrittenIsRead};
ghost use Rattle.lane_words.specs.PlaceRows.{RowsAreOfEpochs};

/// The words of more items begin with those of the first. A words file is read as the words that were written, the Bad ones among
/// them.
pub fn words_grow()
    ensures grow { WordsGrow }
    ensures read { WrittenIsRead }
{}

/// The words of all items of lanes that are over are those of the epochs of the lanes, with one Bad word between each two, and as
/// many epochs are counted as there are. Of clean lanes they are the words of the stream from group 3 on.
pub fn words_are_of_epochs()
    ensures epochs { WordsAreOfEpochs }
    ensures clean { CleanLanesGiveStream }
{}

/// The rows of places of all items of lanes that are over are those of the epochs of the lanes: for each epoch one for each of its
/// groups, with the number of the group's first word, and one for its break, with the number of the word that stands for it.
pub fn rows_are_of_epochs()
    ensures { RowsAreOfEpochs }
{}

/// The words of epochs, one Bad word between each two, deliver on each channel the packets that the epochs deliver, in order, where
/// they are received as those of a words file. So the words of all items of lanes, which are read as they were written, deliver what
/// the lanes deliver.
pub fn words_deliver()
    ensures epochs { WordsDeliverAsEpochs }
    ensures lanes { LanesAreGivenBack }
{}

/// Worked examples: the words of two epochs, and the words file of two words.
pub fn worked_examples()
    ensures { WorkedWords }
{}
