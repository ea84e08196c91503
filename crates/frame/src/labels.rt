ghost use Rattle.std.specs.Prelude.{◌≡◌, ◌==◌, length, slice_get};
ghost use Rattle.frame.specs.Relabel.{all_below, distinct, list_ok, kept_labels};

use crate::size::{MOST_CHANNELS, channels_suit};
use std::marker::Model;

/// A list of channels of a frame below, as many as a frame may have at most.
// An array and not a Vec: making a relabelled frame may not fail, and so may not allocate.
#[derive(Drop)]
pub(crate) struct Labels {
    count: usize,
    channels: [usize; MOST_CHANNELS],
}

impl Model for Labels {
    ghost use Rattle.std.specs.Prelude.{ℕ, List, take, ◌≤◌};

    ghost Value = { List ℕ };

    ghost view = { λ list. take list.count list.channels };

    ghost invariant = { λ list. list.count ≤ 8 };
}

fn no_repeats(labels: &[usize]) -> bool
    ensures { result ≡ distinct labels.now }
{
    match labels {
        [] => true,
        [first, rest @ ..] => !rest.contains(first) && no_repeats(rest),
    }
}

fn all_exist(labels: &[usize], limit: usize) -> bool
    ensures { result ≡ all_below limit labels.now }
{
    labels.iter().all(|label| *label < limit)
}

/// Is this a list of existing channels, as many as a frame may have, without repeats?
fn labels_suit(labels: &[usize], limit: usize) -> bool
    ensures { result ≡ list_ok limit labels.now }
{
    channels_suit(labels.len()) && all_exist(labels, limit) && no_repeats(labels)
}

impl Labels {
    /// The labels of a list of channels below a limit: none if it does not suit.
    pub(crate) fn new(list: &[usize], limit: usize) -> Labels
        ensures { result ≡ kept_labels limit list.now }
    {
        let mut channels = [0; MOST_CHANNELS];
        if !labels_suit(list, limit) {
            return Labels { count: 0, channels };
        }
        channels[..list.len()].copy_from_slice(list);
        Labels {
            count: list.len(),
            channels,
        }
    }

    pub(crate) fn len(&self) -> usize
        ensures { result ≡ length self.now }
    {
        self.count
    }

    pub(crate) fn is_empty(&self) -> bool
        ensures { result ≡ (length self.now == 0) }
    {
        self.count == 0
    }

    /// The label at a place, if there is one.
    pub(crate) fn get(&self, at: usize) -> Option<usize>
        ensures { result ≡ slice_get self.now at }
    {
        (at < self.count).then(|| self.channels[at])
    }
}
