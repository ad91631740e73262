//! Worked values of the definitions, texts to what a channel owes. Each table in `specs/` has rows of an input and the value
//! that was worked out by hand from the section of the standard, or the sentence of docs/CONFORMANCE.md, that stands above
//! it; no code is named. Each function's contract is its tables; calling it does nothing.
#![tactic(auto, unfolding(crate::proofs::OnLiterals::on_literals))]

ghost use Rattle.worked_examples.specs.Texts.{DurationsAreRead, DurationsAreWritten, DurationsAreRounded, AttributesAreRead, AttributesAreLimited, AttributesAreWritten, DecimalsAreRead, SequencesAreRead, InstantsAreRead, InstantsAreWritten, PairFaultsAreOrdered, ValuesAreChecked, MonthsEnd, FormsAreChecked, OffsetsAreRead};
ghost use Rattle.worked_examples.specs.Lines.{LinesArePlaced, LinesHaveTheirKinds, TagsHaveTheirNames, SchemesAreSeen, VersionsAreRead, TypesAreRead, SegmentDurationsAreRead, ByteRangesAreRead, ReferencesAreResolved, BasesAreWebUrls, KeysAreRead, InitSectionsAreRead, DateRangesAreRead, JoinsCanBeWritten, PathsAreJoined};
ghost use Rattle.worked_examples.specs.Playlists.{WholePlaylistIsRead, TagsArePlaced, SegmentsAreChecked, HeadersAreChecked, ReadersAreLimited, LimitsAreStated, KeysAreInForce, KeysHaveTheirIvs, KeysStayButForTheirIvs, PlacesAreBits, PlacesAreAmongBoth, SectionsHaveTheirKeys, LinesStand, SegmentsBegin, InstantsFollow, SegmentsEnd, PartsAreKept, SegmentsAreCompared, LongTextsAreCompared, FaultsAreTold, TagsApartArePlaced, TagsAfterSegmentsArePlaced, TagsStand};
ghost use Rattle.worked_examples.specs.Splices.{SplicesAreRead, LargeSplicesAreRead, SpliceFaultsAreOrdered};
ghost use Rattle.worked_examples.specs.Breaks.{SignalsAreRead, TicksAreCounted, FirstValuesStand, BreaksEnd, BreaksAreSignalled, StartsAreNear, EndsAreNear, ClosedBreaksCanBeEntered, BreaksAreKnown, BreaksAreEntered, BreaksGoOn, ReasonsAreTold, StartsAreStated, MarksAreMade, BreaksOfOthersGoOn, ReasonsOfOthersAreTold};
ghost use Rattle.worked_examples.specs.Pods.{IdsAreChecked, UrisAreChecked, MethodsAreChecked, FormatsAreChecked, PodsAreSummed, PodsFit, PodsWithInitSectionsFit, RulesAreKept, DecisionsAreTaken, StoreIsLimited, PodsAreFound, OwnPodsFit, UsedPodsStay, FilesAreRead, BreaksAreChecked, AdsAreChecked, SegmentsAreCounted, FaultsOfFilesAreTold, LackOfMemoryHasNoPlace, LongIdsAreApart, LongIdsCountOnce, LongIdsAreFound, StoresFit, NothingIsCopied, AdsAreCounted, ManySegmentsAreCounted};
ghost use Rattle.worked_examples.specs.Stitched.{PodsStandInOrder, RestsAreLeft, RunsAreReplaced, PodsKeepPace, NumbersFit, ItemsAreWritten, MarksAreFound, KeysChange, LargePodsStand, AdsHaveTheirKeys, RunsGoOn};
ghost use Rattle.worked_examples.specs.Written.{LinesAreSpelled, PlaylistsAreWritten, WrittenLinesAreInForce, WrittenTextsTellWhatIsInForce, LargePlaylistsAreWritten, LargeListsAreInForce};
ghost use Rattle.worked_examples.specs.Windows.{ItemsAreOfPods, ItemsHavePieces, PiecesHaveSegments, PiecesLast, MarkedAreTheOrigins, UnmarkedAreSeen, TimesAreStated, MarksAreMeant, RestsAreMeant, SegmentsAreListed, LastWindowsStand, BreaksArePlayed};
ghost use Rattle.worked_examples.specs.Channels.{PlaylistsFollow, TypesStay, SegmentsStay, DiscontinuitiesFollow, EndedStays, TolerancesAreStated, BreaksAreFilled, TolerancesCount, SeveralAreFilled, WindowsGoOn, BreaksAreCarried, HeadersAreOwed, TypesAreOwed, PodsAreKept, StatesAreKept, RefreshFaultsAreTold, LastNumbersAreRefused, LastSegmentsCount};
ghost use Rattle.worked_examples.specs.LargePlaylists.{LargePlaylistsAreRead, LargePlaylistsAreDenoted};
ghost use Rattle.worked_examples.specs.Long.{LongRunsAreWritten, WholeListsAreStitched, DateRangesAreLeft, PodsStay, BreaksAreInUse, LongStatesAreKept, DateRangesAreCarried, BreaksAreShown, WindowsAreKept};
ghost use Rattle.worked_examples.specs.Paced.{BreaksGoThrough, PodsGoOnWithRuns, NothingIsShownAtOnce, InstantsCount, TimesAreReckoned, RestsAreWritten, DateRangesComeBack, PodsGo, FallbacksStay, FallbacksFillEach, OwnPodsComeFirst, UsedPodsStand, LastBreaksAreLeft};

/// Durations, attribute lists, numbers and times.
pub fn texts_have_their_values()
    ensures durations_are_read { DurationsAreRead }
    ensures durations_are_written { DurationsAreWritten }
    ensures durations_are_rounded { DurationsAreRounded }
    ensures attributes_are_read { AttributesAreRead }
    ensures attributes_are_limited { AttributesAreLimited }
    ensures attributes_are_written { AttributesAreWritten }
    ensures decimals_are_read { DecimalsAreRead }
    ensures sequences_are_read { SequencesAreRead }
    ensures instants_are_read { InstantsAreRead }
    ensures instants_are_written { InstantsAreWritten }
    ensures pair_faults_are_ordered { PairFaultsAreOrdered }
    ensures values_are_checked { ValuesAreChecked }
    ensures months_end { MonthsEnd }
    ensures forms_are_checked { FormsAreChecked }
    ensures offsets_are_read { OffsetsAreRead }
{}

/// What one line of a playlist says.
pub fn lines_have_their_values()
    ensures lines_are_placed { LinesArePlaced }
    ensures lines_have_their_kinds { LinesHaveTheirKinds }
    ensures tags_have_their_names { TagsHaveTheirNames }
    ensures schemes_are_seen { SchemesAreSeen }
    ensures versions_are_read { VersionsAreRead }
    ensures types_are_read { TypesAreRead }
    ensures segment_durations_are_read { SegmentDurationsAreRead }
    ensures byte_ranges_are_read { ByteRangesAreRead }
    ensures references_are_resolved { ReferencesAreResolved }
    ensures bases_are_web_urls { BasesAreWebUrls }
    ensures keys_are_read { KeysAreRead }
    ensures init_sections_are_read { InitSectionsAreRead }
    ensures date_ranges_are_read { DateRangesAreRead }
    ensures joins_can_be_written { JoinsCanBeWritten }
    ensures paths_are_joined { PathsAreJoined }
{}

/// What the bytes of a playlist denote, or their first fault; when segments begin, and which are the same.
pub fn playlists_have_their_values()
    ensures whole_playlist_is_read { WholePlaylistIsRead }
    ensures tags_are_placed { TagsArePlaced }
    ensures segments_are_checked { SegmentsAreChecked }
    ensures headers_are_checked { HeadersAreChecked }
    ensures readers_are_limited { ReadersAreLimited }
    ensures limits_are_stated { LimitsAreStated }
    ensures keys_are_in_force { KeysAreInForce }
    ensures keys_have_their_ivs { KeysHaveTheirIvs }
    ensures keys_stay_but_for_their_ivs { KeysStayButForTheirIvs }
    ensures places_are_bits { PlacesAreBits }
    ensures places_are_among_both { PlacesAreAmongBoth }
    ensures sections_have_their_keys { SectionsHaveTheirKeys }
    ensures lines_stand { LinesStand }
    ensures segments_begin { SegmentsBegin }
    ensures instants_follow { InstantsFollow }
    ensures segments_end { SegmentsEnd }
    ensures parts_are_kept { PartsAreKept }
    ensures segments_are_compared { SegmentsAreCompared }
    ensures long_texts_are_compared { LongTextsAreCompared }
    ensures faults_are_told { FaultsAreTold }
    ensures tags_apart_are_placed { TagsApartArePlaced }
    ensures tags_after_segments_are_placed { TagsAfterSegmentsArePlaced }
    ensures tags_stand { TagsStand }
{}

/// What a splice section says, by the tables of ANSI/SCTE 35.
pub fn splices_have_their_values()
    ensures splices_are_read { SplicesAreRead }
    ensures large_splices_are_read { LargeSplicesAreRead }
    ensures splice_faults_are_ordered { SpliceFaultsAreOrdered }
{}

/// What date ranges say of breaks, which breaks are known, and which one a segment enters.
pub fn breaks_have_their_values()
    ensures signals_are_read { SignalsAreRead }
    ensures ticks_are_counted { TicksAreCounted }
    ensures first_values_stand { FirstValuesStand }
    ensures breaks_end { BreaksEnd }
    ensures breaks_are_signalled { BreaksAreSignalled }
    ensures starts_are_near { StartsAreNear }
    ensures ends_are_near { EndsAreNear }
    ensures closed_breaks_can_be_entered { ClosedBreaksCanBeEntered }
    ensures breaks_are_known { BreaksAreKnown }
    ensures breaks_are_entered { BreaksAreEntered }
    ensures breaks_go_on { BreaksGoOn }
    ensures reasons_are_told { ReasonsAreTold }
    ensures starts_are_stated { StartsAreStated }
    ensures marks_are_made { MarksAreMade }
    ensures breaks_of_others_go_on { BreaksOfOthersGoOn }
    ensures reasons_of_others_are_told { ReasonsOfOthersAreTold }
{}

/// Pods, the store of decided breaks, and decision files.
pub fn pods_have_their_values()
    ensures ids_are_checked { IdsAreChecked }
    ensures uris_are_checked { UrisAreChecked }
    ensures methods_are_checked { MethodsAreChecked }
    ensures formats_are_checked { FormatsAreChecked }
    ensures pods_are_summed { PodsAreSummed }
    ensures pods_fit { PodsFit }
    ensures pods_with_init_sections_fit { PodsWithInitSectionsFit }
    ensures rules_are_kept { RulesAreKept }
    ensures decisions_are_taken { DecisionsAreTaken }
    ensures store_is_limited { StoreIsLimited }
    ensures pods_are_found { PodsAreFound }
    ensures own_pods_fit { OwnPodsFit }
    ensures used_pods_stay { UsedPodsStay }
    ensures files_are_read { FilesAreRead }
    ensures breaks_are_checked { BreaksAreChecked }
    ensures ads_are_checked { AdsAreChecked }
    ensures segments_are_counted { SegmentsAreCounted }
    ensures faults_of_files_are_told { FaultsOfFilesAreTold }
    ensures lack_of_memory_has_no_place { LackOfMemoryHasNoPlace }
    ensures long_ids_are_apart { LongIdsAreApart }
    ensures long_ids_count_once { LongIdsCountOnce }
    ensures long_ids_are_found { LongIdsAreFound }
    ensures stores_fit { StoresFit }
    ensures nothing_is_copied { NothingIsCopied }
    ensures ads_are_counted { AdsAreCounted }
    ensures many_segments_are_counted { ManySegmentsAreCounted }
{}

/// The stitched list: pods in place of runs, numbers, and the pace of a run.
pub fn stitched_have_their_values()
    ensures pods_stand_in_order { PodsStandInOrder }
    ensures rests_are_left { RestsAreLeft }
    ensures runs_are_replaced { RunsAreReplaced }
    ensures pods_keep_pace { PodsKeepPace }
    ensures numbers_fit { NumbersFit }
    ensures items_are_written { ItemsAreWritten }
    ensures marks_are_found { MarksAreFound }
    ensures keys_change { KeysChange }
    ensures large_pods_stand { LargePodsStand }
    ensures ads_have_their_keys { AdsHaveTheirKeys }
    ensures runs_go_on { RunsGoOn }
{}

/// How a playlist is spelled.
pub fn written_have_their_values()
    ensures lines_are_spelled { LinesAreSpelled }
    ensures playlists_are_written { PlaylistsAreWritten }
    ensures written_lines_are_in_force { WrittenLinesAreInForce }
    ensures written_texts_tell_what_is_in_force { WrittenTextsTellWhatIsInForce }
    ensures large_playlists_are_written { LargePlaylistsAreWritten }
    ensures large_lists_are_in_force { LargeListsAreInForce }
{}

/// Which playlist may follow which, and what a channel owes after decisions and refreshes.
pub fn channels_have_their_values()
    ensures playlists_follow { PlaylistsFollow }
    ensures types_stay { TypesStay }
    ensures segments_stay { SegmentsStay }
    ensures discontinuities_follow { DiscontinuitiesFollow }
    ensures ended_stays { EndedStays }
    ensures tolerances_are_stated { TolerancesAreStated }
    ensures breaks_are_filled { BreaksAreFilled }
    ensures tolerances_count { TolerancesCount }
    ensures several_are_filled { SeveralAreFilled }
    ensures windows_go_on { WindowsGoOn }
    ensures breaks_are_carried { BreaksAreCarried }
    ensures headers_are_owed { HeadersAreOwed }
    ensures types_are_owed { TypesAreOwed }
    ensures pods_are_kept { PodsAreKept }
    ensures states_are_kept { StatesAreKept }
    ensures refresh_faults_are_told { RefreshFaultsAreTold }
    ensures last_numbers_are_refused { LastNumbersAreRefused }
    ensures last_segments_count { LastSegmentsCount }
{}

/// What stands in a window: its items and pieces, the breaks that are played in it, and the pods that its marks mean.
pub fn windows_have_their_values()
    ensures items_are_of_pods { ItemsAreOfPods }
    ensures items_have_pieces { ItemsHavePieces }
    ensures pieces_have_segments { PiecesHaveSegments }
    ensures pieces_last { PiecesLast }
    ensures marked_are_the_origins { MarkedAreTheOrigins }
    ensures unmarked_are_seen { UnmarkedAreSeen }
    ensures times_are_stated { TimesAreStated }
    ensures marks_are_meant { MarksAreMeant }
    ensures rests_are_meant { RestsAreMeant }
    ensures segments_are_listed { SegmentsAreListed }
    ensures last_windows_stand { LastWindowsStand }
    ensures breaks_are_played { BreaksArePlayed }
{}

/// Pods at the pace of their runs, and fallbacks.
pub fn paced_have_their_values()
    ensures breaks_go_through { BreaksGoThrough }
    ensures pods_go_on_with_runs { PodsGoOnWithRuns }
    ensures nothing_is_shown_at_once { NothingIsShownAtOnce }
    ensures instants_count { InstantsCount }
    ensures times_are_reckoned { TimesAreReckoned }
    ensures rests_are_written { RestsAreWritten }
    ensures date_ranges_come_back { DateRangesComeBack }
    ensures pods_go { PodsGo }
    ensures fallbacks_stay { FallbacksStay }
    ensures fallbacks_fill_each { FallbacksFillEach }
    ensures own_pods_come_first { OwnPodsComeFirst }
    ensures used_pods_stand { UsedPodsStand }
    ensures last_breaks_are_left { LastBreaksAreLeft }
{}

/// A long run, the rest of its pod, and IDs that differ in their last byte.
pub fn long_runs_have_their_values()
    ensures long_runs_are_written { LongRunsAreWritten }
    ensures whole_lists_are_stitched { WholeListsAreStitched }
    ensures date_ranges_are_left { DateRangesAreLeft }
    ensures pods_stay { PodsStay }
    ensures breaks_are_in_use { BreaksAreInUse }
    ensures long_states_are_kept { LongStatesAreKept }
    ensures date_ranges_are_carried { DateRangesAreCarried }
    ensures breaks_are_shown { BreaksAreShown }
    ensures windows_are_kept { WindowsAreKept }
{}

/// What the bytes of a large playlist denote.
pub fn large_playlists_have_their_values()
    ensures large_playlists_are_read { LargePlaylistsAreRead }
    ensures large_playlists_are_denoted { LargePlaylistsAreDenoted }
{}
