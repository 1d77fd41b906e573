ghost use Rattle.std.specs.Prelude.{◌≡◌, ℕ, ◌+◌, ◌^◌, ◌<◌, ◌≤◌, List, [], ◌∷◌, ◌++◌, length, map, count_by, take, true, Some, IfOk, IfSome, OnOk, OnErr};
ghost use Rattle.lk_base.specs.declared.word.Word.{Word};
ghost use Rattle.lk_base.specs.declared.word.Word.TheVariants.{Data};
ghost use Rattle.tx_words.specs.Sent.{ends, last_channel, starts, starts_on};
ghost use Rattle.tx_words.specs.Places.{Half, Stands, start_channel as channel_of_start};

use crate::sent::{Place, Sent, channel_after, ended_channel, no_places, start_channel};
use lk_base::{OutOfMemory, Word};
use std::alloc::Global;

/// The packets whose SOP word was made, while words are made. The room for a packet is taken before its SOP word.
#[derive(Drop)]
pub struct SentList {
    // The packets are the first `count`; the others are room.
    list: Vec<Sent>,
    count: usize,
    places: Vec<Place>,
    // The channel of the last burst word.
    last: Option<usize>,
    slot: u64,
}

// Ends the open packet of a channel, if there is one.
fn end_open(list: &mut [Sent], places: &mut [Place], channel: usize, slot: u64)
    requires stands { (p : List Word) × (count : ℕ) × Stands p (take count list.old) places.old × (count ≤ length list.old) × (slot ≡ length p) × (last_channel p ≡ Some channel) }
    requires low { channel < 65536 }
    ensures half { (p : List Word) (word : Word) (count : ℕ) → Stands p (take count list.old) places.old → count ≤ length list.old → slot ≡ length p → last_channel p ≡ Some channel → ends word ≡ true → Half p word (take count list.new) places.new }
    ensures long { length list.new ≡ length list.old }
    ensures places { length places.new ≡ length places.old }
{
    if let Some(number) = places[channel].current {
        list[number].last = Some(slot);
        places[channel].current = None;
    }
}

// Ends the packet that the word ends, if it ends one.
fn end_packet(list: &mut [Sent], places: &mut [Place], last: Option<usize>, word: Word, slot: u64)
    requires stands { (p : List Word) × (count : ℕ) × Stands p (take count list.old) places.old × (count ≤ length list.old) × (slot ≡ length p) × (last ≡ last_channel p) }
    requires low { IfSome last (λ channel. channel < 65536) }
    ensures half { (p : List Word) (count : ℕ) → Stands p (take count list.old) places.old → count ≤ length list.old → slot ≡ length p → last ≡ last_channel p → Half p word (take count list.new) places.new }
    ensures long { length list.new ≡ length list.old }
    ensures places { length places.new ≡ length places.old }
{
    match ended_channel(last, word) {
        Some(channel) => end_open(list, places, channel, slot),
        None => {}
    }
}

// Puts a new packet of a channel after the listed ones.
fn start_open(list: &mut [Sent], count: usize, places: &mut [Place], channel: usize, slot: u64)
    requires half { (p : List Word) × (word : Word) × Half p word (take count list.old) places.old × (slot ≡ length p) × (count_by (starts_on channel) p + 1 < 2 ^ 32) }
    requires low { channel < 65536 }
    requires room { count < length list.old }
    ensures stands { (p : List Word) (word : Word) → Half p word (take count list.old) places.old → slot ≡ length p → channel_of_start word ≡ Some channel → Stands (p ++ word ∷ []) (take (count + 1) list.new) places.new }
    ensures long { length list.new ≡ length list.old }
    ensures places { length places.new ≡ length places.old }
{
    let place = places[channel];
    list[count] = Sent {
        channel: channel as u16,
        number: place.started,
        first: slot,
        last: None,
    };
    places[channel] = Place {
        started: place.started + 1,
        current: Some(count),
    };
}

// Starts the packet that the word starts, if it starts one, and answers how many are listed then.
fn start_packet(
    list: &mut [Sent],
    count: usize,
    places: &mut [Place],
    word: Word,
    slot: u64,
) -> usize
    requires half { (p : List Word) × (total : ℕ) × Half p word (take count list.old) places.old × (slot ≡ length p) × (count_by starts (p ++ word ∷ []) ≤ total) × (total ≤ length list.old) × (total < 2 ^ 32) }
    requires within { count ≤ length list.old }
    ensures stands { (p : List Word) → Half p word (take count list.old) places.old → slot ≡ length p → Stands (p ++ word ∷ []) (take result list.new) places.new }
    ensures within { result ≤ length list.new }
    ensures long { length list.new ≡ length list.old }
    ensures places { length places.new ≡ length places.old }
{
    match start_channel(word) {
        Some(channel) => {
            start_open(list, count, places, channel, slot);
            count + 1
        }
        None => count,
    }
}

// Room for a packet.
const NO_PACKET: Sent = Sent {
    channel: 0,
    number: 0,
    first: 0,
    last: None,
};

impl SentList {
    ghost use Rattle.tx_words.specs.Sent.{AreSent};
    ghost use Rattle.tx_words.specs.SentLists.{Lists};

    /// No word was made, and there is room for `room` packets.
    ///
    /// # Errors
    ///
    /// `OutOfMemory` where memory ran out, and nowhere else.
    pub fn new(alloc: Global, room: usize) -> Result<SentList, OutOfMemory>
        ensures { IfOk result (λ l. Lists l [] room) }
    {
        let list = vec![in alloc; NO_PACKET; room]?;
        let places = no_places(alloc)?;
        Ok(SentList {
            list,
            count: 0,
            places,
            last: None,
            slot: 0,
        })
    }

    /// Takes the room for one more packet.
    ///
    /// # Errors
    ///
    /// `OutOfMemory` where memory ran out, and nowhere else. The room is as it was.
    pub fn room(&mut self) -> Result<(), OutOfMemory>
        ensures ok { OnOk result ((p : List Word) (room : ℕ) → Lists self.old p room → Lists self.new p (room + 1)) }
        ensures err { OnErr result ((p : List Word) (room : ℕ) → Lists self.old p room → Lists self.new p room) }
    {
        self.list.push(NO_PACKET)?;
        Ok(())
    }

    /// The next word is made. There is room for all packets that have started then, fewer than 2^32, and fewer than 2^63 words
    /// were made before.
    #[inline]
    pub fn pass(&mut self, word: Word)
        requires { (p : List Word) × (room : ℕ) × Lists self.old p room × (count_by starts (p ++ word ∷ []) ≤ room) × (room < 2 ^ 32) × (length p < 2 ^ 63) }
        ensures { (p : List Word) (room : ℕ) → Lists self.old p room → Lists self.new (p ++ word ∷ []) room }
    {
        if let Word::Data(_) = word {
            // no packet starts or ends here
            self.slot += 1;
            return;
        }
        self.pass_control(word);
    }

    // The next word is made, and it may start a packet and end one. It is out of line, as most words are data.
    #[inline(never)]
    fn pass_control(&mut self, word: Word)
        requires { (p : List Word) × (room : ℕ) × Lists self.old p room × (count_by starts (p ++ word ∷ []) ≤ room) × (room < 2 ^ 32) × (length p < 2 ^ 63) }
        ensures { (p : List Word) (room : ℕ) → Lists self.old p room → Lists self.new (p ++ word ∷ []) room }
    {
        end_packet(&mut self.list, &mut self.places, self.last, word, self.slot);
        self.count = start_packet(
            &mut self.list,
            self.count,
            &mut self.places,
            word,
            self.slot,
        );
        self.last = channel_after(self.last, word);
        self.slot += 1;
    }

    /// Takes the next `count` words, which are data words, as `pass` takes each. Fewer than 2^63 words are made then.
    #[inline]
    pub fn pass_data(&mut self, count: usize)
        requires { (p : List Word) × (room : ℕ) × Lists self.old p room × (length p + count < 2 ^ 63) }
        ensures { (p : List Word) (numbers : List ℕ) (room : ℕ) → Lists self.old p room → length numbers ≡ count → Lists self.new (p ++ map Data numbers) room }
    {
        self.slot += count as u64;
    }

    /// The next words are made, one after another, as `pass` takes each.
    pub fn pass_block(&mut self, words: &[Word])
        requires { (p : List Word) × (room : ℕ) × Lists self.old p room × (count_by starts (p ++ words.now) ≤ room) × (room < 2 ^ 32) × (length p + length words.now < 2 ^ 63) }
        ensures { (p : List Word) (room : ℕ) → Lists self.old p room → Lists self.new (p ++ words.now) room }
    {
        for place in 0..words.len() {
            self.pass(words[place]);
        }
    }

    /// The packets whose SOP word was made, in the order of these words.
    pub fn sent(&self) -> &[Sent]
        requires { (p : List Word) × (room : ℕ) × Lists self.now p room }
        ensures { (p : List Word) (room : ℕ) → Lists self.now p room → AreSent p result.now }
    {
        &self.list[..self.count]
    }

    /// The packets whose SOP word was made, where no more words are made.
    pub fn into_sent(self) -> Vec<Sent>
        requires { (p : List Word) × (room : ℕ) × Lists self p room }
        ensures { (p : List Word) (room : ℕ) → Lists self p room → AreSent p result.items }
    {
        let mut list = self.list;
        list.truncate(self.count);
        list
    }
}
