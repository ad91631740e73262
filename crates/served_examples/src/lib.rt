//! Worked values of the definitions of requests, replies, connections and runs. Each table in `specs/` has rows of an input
//! and the value that was worked out by hand from the section of the standard, or the sentence of docs/OPERATING.md, that
//! stands above it; no code is named. Each function's contract is its tables; calling it does nothing.
#![tactic(auto, unfolding(crate::proofs::OnLiterals::on_literals))]

ghost use Rattle.served_examples.specs.Requests.{NamesAreChecked, QueriesArePassedOver, RoutesAreFound, OtherPathsAreNone, BodiesAreFramed, HeadsAreFramed, MessagesAreLimited, RepliesAreWritten, HeadsAreSent, HeadRepliesAreWritten, AllFieldsCount};
ghost use Rattle.served_examples.specs.Answers.{ChannelsAreMade, RefreshesAreAnswered, PlaylistsAreRead, DecisionsAreAnswered, DecisionFaultsAreAnswered, RefreshFaultsAreAnswered, WordsOfWhyAreTold, ReasonsAreAnswered, TablesAreLimited, ChannelsAreApart, LongNamesAreServed, LongNamesAreApart, RequestsAreServed, RequestsWereAsked, RequestsWereAnswered, OthersStay, BodyFaultsAreAnswered, BodyFaultsAreTold, ChannelsAreOnce};
ghost use Rattle.served_examples.specs.Clients.{ClientsAreLimited, PlacesAreGiven, RepliesAreGivenUpLast, RoomIsGiven, RoomIsLeft, BytesAreHeld, RepliesAreLeft, PartsAreRead, BytesAreTaken, VisitsAreCounted, WordsAreSaid, BytesAreSent, PiecesAreJoined, CallsAreCounted, FailuresAreCounted, OthersAreApart, TurnsAreTaken, ChannelsHaveTurns, TurnsAreCounted, PlacesAhead, ClientsJoin, ClientsLeave};
ghost use Rattle.served_examples.specs.Gone.{ChannelsAreMadeOnce};
ghost use Rattle.served_examples.specs.Kept.{StatesAreMeant, SegmentsAreHeld, StoresAreReplaced, TextsAreKept, RefreshesAreOwed, LackOfMemoryIsSeen, DecisionsAreStored, ShownAreMeant, FirstNumbersAreTold};
ghost use Rattle.served_examples.specs.Runs.{ReadsAreLimited, FilesAreTold, FilesAreGiven, BytesAreTold, UrisAreWhole, ReadNumbersRise, ReadSegmentsAreWritten, LinesKeepTheirLimit, InputsAreReadUnderBases, RunsAreTold};

/// What a request names, the length of its body, and how a reply is written.
pub fn requests_have_their_values()
    ensures names_are_checked { NamesAreChecked }
    ensures queries_are_passed_over { QueriesArePassedOver }
    ensures routes_are_found { RoutesAreFound }
    ensures other_paths_are_none { OtherPathsAreNone }
    ensures bodies_are_framed { BodiesAreFramed }
    ensures heads_are_framed { HeadsAreFramed }
    ensures messages_are_limited { MessagesAreLimited }
    ensures replies_are_written { RepliesAreWritten }
    ensures heads_are_sent { HeadsAreSent }
    ensures head_replies_are_written { HeadRepliesAreWritten }
    ensures all_fields_count { AllFieldsCount }
{}

/// What each request on channels is answered: the lines of the table "Answers" in docs/OPERATING.md.
pub fn answers_have_their_values()
    ensures channels_are_made { ChannelsAreMade }
    ensures refreshes_are_answered { RefreshesAreAnswered }
    ensures playlists_are_read { PlaylistsAreRead }
    ensures decisions_are_answered { DecisionsAreAnswered }
    ensures decision_faults_are_answered { DecisionFaultsAreAnswered }
    ensures refresh_faults_are_answered { RefreshFaultsAreAnswered }
    ensures words_of_why_are_told { WordsOfWhyAreTold }
    ensures reasons_are_answered { ReasonsAreAnswered }
    ensures tables_are_limited { TablesAreLimited }
    ensures channels_are_apart { ChannelsAreApart }
    ensures long_names_are_served { LongNamesAreServed }
    ensures long_names_are_apart { LongNamesAreApart }
    ensures requests_are_served { RequestsAreServed }
    ensures requests_were_asked { RequestsWereAsked }
    ensures requests_were_answered { RequestsWereAnswered }
    ensures others_stay { OthersStay }
    ensures body_faults_are_answered { BodyFaultsAreAnswered }
    ensures body_faults_are_told { BodyFaultsAreTold }
    ensures channels_are_once { ChannelsAreOnce }
{}

/// Many clients at once: who is given up for whom, what was said and taken, and the limits.
pub fn clients_have_their_values()
    ensures clients_are_limited { ClientsAreLimited }
    ensures places_are_given { PlacesAreGiven }
    ensures replies_are_given_up_last { RepliesAreGivenUpLast }
    ensures room_is_given { RoomIsGiven }
    ensures room_is_left { RoomIsLeft }
    ensures bytes_are_held { BytesAreHeld }
    ensures replies_are_left { RepliesAreLeft }
    ensures parts_are_read { PartsAreRead }
    ensures bytes_are_taken { BytesAreTaken }
    ensures visits_are_counted { VisitsAreCounted }
    ensures words_are_said { WordsAreSaid }
    ensures bytes_are_sent { BytesAreSent }
    ensures pieces_are_joined { PiecesAreJoined }
    ensures calls_are_counted { CallsAreCounted }
    ensures failures_are_counted { FailuresAreCounted }
    ensures others_are_apart { OthersAreApart }
    ensures turns_are_taken { TurnsAreTaken }
    ensures channels_have_turns { ChannelsHaveTurns }
    ensures turns_are_counted { TurnsAreCounted }
    ensures places_ahead { PlacesAhead }
    ensures clients_join { ClientsJoin }
    ensures clients_leave { ClientsLeave }
{}

/// The law of isolation at one run: a client that was answered and has gone counts.
pub fn clients_that_went_count()
    ensures { ChannelsAreMadeOnce }
{}

/// A run over one playlist, and what a channel was given.
pub fn runs_have_their_values()
    ensures reads_are_limited { ReadsAreLimited }
    ensures files_are_told { FilesAreTold }
    ensures files_are_given { FilesAreGiven }
    ensures bytes_are_told { BytesAreTold }
    ensures uris_are_whole { UrisAreWhole }
    ensures read_numbers_rise { ReadNumbersRise }
    ensures read_segments_are_written { ReadSegmentsAreWritten }
    ensures lines_keep_their_limit { LinesKeepTheirLimit }
    ensures inputs_are_read_under_bases { InputsAreReadUnderBases }
    ensures runs_are_told { RunsAreTold }
{}

/// What a channel keeps, is owed and answers, by what it was given.
pub fn kept_have_their_values()
    ensures states_are_meant { StatesAreMeant }
    ensures segments_are_held { SegmentsAreHeld }
    ensures stores_are_replaced { StoresAreReplaced }
    ensures texts_are_kept { TextsAreKept }
    ensures refreshes_are_owed { RefreshesAreOwed }
    ensures lack_of_memory_is_seen { LackOfMemoryIsSeen }
    ensures decisions_are_stored { DecisionsAreStored }
    ensures shown_are_meant { ShownAreMeant }
    ensures first_numbers_are_told { FirstNumbersAreTold }
{}
